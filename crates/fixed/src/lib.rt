//! A fixed number of elements.
#![tactic(auto)]

mod crossing;

ghost use Rattle.std.specs.Prelude.{◌≡◌, length};
ghost use Rattle.std.specs.Borrow.{sem};

use std::boxed::BoxedSlice;
use std::marker::Model;

/// As many elements as it was made of, for as long as it stands. It can't grow, and it gives neither its allocator nor a copy
/// of itself: so whoever has nothing but such a value can take no memory by it.
#[derive(Drop)]
pub struct Fixed<T> {
    items: BoxedSlice<T>,
}

impl<T> Model for Fixed<T> {
    ghost use Rattle.std.specs.Prelude.{List};
    ghost use Rattle.std.specs.Coded.{coded_list};
    ghost use Rattle.std.specs.Box.{boxed_slice_items};

    ghost Value = { List T };

    ghost coded = { coded_list T.code };

    ghost view = { λ f. boxed_slice_items f.items };
}

impl<T> Fixed<T> {
    ghost use Rattle.fixed.specs.Lends.{lends_slice};

    /// These elements.
    pub fn new(items: Vec<T>) -> Fixed<T>
        ensures { result ≡ items.items }
    {
        Fixed {
            items: items.into_boxed_slice(),
        }
    }

    /// How many there are.
    #[inline(always)]
    pub fn len(&self) -> usize
        ensures { result ≡ length self.now }
    {
        self.items.as_slice().len()
    }

    /// The elements.
    #[inline(always)]
    pub fn as_slice(&self) -> &[T]
        ensures { result.now ≡ self.now }
    {
        self.items.as_slice()
    }

    /// The elements, to be written.
    #[inline(always)]
    pub fn as_mut_slice(&mut self) -> &mut [T]
        ensures* writes_back { sem 𝓛 (lends_slice T.row self.entry result) }
        ensures value { result.now ≡ self.old }
    {
        self.items.as_mut_slice()
    }
}
