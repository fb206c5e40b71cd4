ghost use Rattle.std.specs.Prelude.{◌≡◌, ◌++◌, [], ◌∷◌, if◌then◌else◌};

use fabric_lock::Told;

/// A list of entries, beside a base that no entry changes.
#[derive(Drop)]
pub struct Log {
    pub base: u8,
    pub entries: Vec<u16>,
}

impl Told for Log {
    type Base = u8;

    ghost base_of = { λ log. log.base };

    ghost told_of = { λ log. log.entries.items };

    fn base(&self) -> &u8 {
        &self.base
    }

    fn told(&self) -> &[u16] {
        self.entries.as_slice()
    }
}

/// Adds an entry, and says whether it did. Without memory for it the log stays.
pub(crate) fn append(log: &mut Log, entry: u16) -> bool
    ensures base { log.new.base ≡ log.old.base }
    ensures told { log.new.entries.items ≡ (if result then log.old.entries.items ++ entry ∷ [] else log.old.entries.items) }
{
    log.entries.push(entry).is_ok()
}
