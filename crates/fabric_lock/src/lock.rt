ghost use Rattle.std.specs.Prelude.{◌≡◌, ◌+◌, ◌-◌, ◌<◌, ◌≤◌, List, [], ◌∷◌, ◌++◌, length, drop, IfOk, IfErr};
ghost use Rattle.fabric_lock.specs.declared.views.Stage.TheVariants.{Free, Holding};
ghost use Rattle.fabric_lock.specs.History.{Begins, entries_of, AllOf, IsNext, longer};
ghost use Rattle.fabric_lock.specs.Views.{with_more};

use crate::held::Held;
use crate::plays::{Adds, Claim, Look, Open, Part, Release, Tell};
use crate::seat::{Place, Seat};
use crate::told::Told;
use crate::views::{About, OneHistory, View};
use atomic_table::Table;
use std::alloc::{AllocError, Global};
use std::marker::Brand;
use std::snapshot::Snapshot;
use std::sync::Wait;

/// A lock whose value has a history. One seat at a time has the value, from `enter` to `leave`, and adds at most one entry.
/// The lock keeps the base that its first value has, and the one history, to which entries are only added.
pub struct FabricLock<V: Told> {
    table: Table<Option<V>, View<V>, About<V>, OneHistory, Global>,
    workers: u8,
    ghost sized: { (table.shared.table_id.words ≡ 2) × (table.shared.table_id.slots ≡ 1) },
    ghost crew: { (table.shared.key.workers ≡ workers) × (workers ≤ 8) },
}

impl<V: Told> FabricLock<V> {
    ghost use Rattle.fabric_lock.specs.Lock.{first_of, IsSeatOf, IsHeldOf, seen, own, found, own_then};
    ghost use Rattle.fabric_lock.specs.Owner.{BelongsTo};
    ghost use Rattle.fabric_lock.specs.Steps.{Claims};

    /// A lock for 1 to 8 workers round a value with an empty history, and its first seat: number 0, with a spare number for
    /// each further worker. Where there is no memory, the value comes back as it was.
    pub fn new(
        alloc: Global,
        value: V,
        workers: u8,
    ) -> Result<(FabricLock<V>, Seat<V>), (V, AllocError)>
        requires workers { (1 ≤ workers) × (workers ≤ 8) }
        requires empty { V.told_of value ≡ [] }
        ensures lock { IfOk result (λ r. (first_of r.0 ≡ value) × (r.0.workers ≡ workers)) }
        ensures seat { IfOk result (λ r. IsSeatOf r.0 r.1 × (r.1.number ≡ 0) × (r.1.spare ≡ workers - 1) × (r.1.gathered ≡ 1)) }
        ensures nothing { IfOk result (λ r. (seen r.1 ≡ []) × (own r.1 ≡ [])) }
        ensures err { IfErr result (λ e. e.0 ≡ value) }
    {
        let first = Snapshot::of(&value);
        let about = About { first, workers };
        let made = Table::vacant(alloc, &[1, 0], 1, &about);
        let About {
            first: _,
            workers: _,
        } = about;
        let Ok((table, mut place)) = made else {
            return Err((value, AllocError));
        };
        let shared = &table.shared;
        shared.store::<Open>(&mut place, 1, 0);
        let hole = shared.exchange(&mut place, 0, Some(value));
        let None = hole else { unreachable!() };
        shared.store::<Release>(&mut place, 0, 0);
        let lock = FabricLock { table, workers };
        let seat = Seat {
            number: 0,
            spare: workers - 1,
            gathered: 1,
            place,
        };
        Ok((lock, seat))
    }

    /// Hands out a new number: the seat as it was, with one spare number fewer, and a seat with the new number, which has
    /// seen the same history and has no own entries. The numbers are handed out in ascending order.
    pub fn split(&self, seat: Seat<V>) -> (Seat<V>, Seat<V>)
        requires lock { IsSeatOf self.now seat }
        requires spare { 0 < seat.spare }
        ensures lock { IsSeatOf self.now result.0 × IsSeatOf self.now result.1 }
        ensures first { (result.0.number ≡ seat.number) × (result.0.spare + 1 ≡ seat.spare) × (result.0.gathered ≡ seat.gathered) }
        ensures knows { (seen result.0 ≡ seen seat) × (own result.0 ≡ own seat) }
        ensures second { (result.1.number + seat.spare ≡ self.now.workers) × (result.1.spare ≡ 0) × (result.1.gathered ≡ 1) }
        ensures new { (seen result.1 ≡ seen seat) × (own result.1 ≡ []) }
    {
        let Seat {
            number,
            spare,
            gathered,
            mut place,
        } = seat;
        let other = self.table.shared.split_seat::<Part>(&mut place);
        let first = Seat {
            number,
            spare: spare - 1,
            gathered,
            place,
        };
        let second = Seat {
            number: self.workers - spare,
            spare: 0,
            gathered: 1,
            place: other,
        };
        (first, second)
    }

    /// Takes the second seat into the first, which keeps its number and its own entries. It has then seen the longer of the
    /// two histories, and stands for the seats of both.
    pub fn join(&self, a: Seat<V>, b: Seat<V>) -> Seat<V>
        requires a { IsSeatOf self.now a }
        requires b { IsSeatOf self.now b }
        ensures lock { IsSeatOf self.now result }
        ensures counts { (result.number ≡ a.number) × (result.spare ≡ a.spare + b.spare) × (result.gathered ≡ a.gathered + b.gathered) }
        ensures seen { seen result ≡ longer (seen a) (seen b) }
        ensures own { own result ≡ own a }
    {
        let Seat {
            number,
            spare,
            gathered,
            mut place,
        } = a;
        let Seat {
            number: _,
            spare: more,
            gathered: others,
            place: other,
        } = b;
        self.table.shared.join_seat::<Part>(&mut place, other);
        self.look(&mut place);
        Seat {
            number,
            spare: spare + more,
            gathered: gathered + others,
            place,
        }
    }

    // Reads word 0, which tells that the counts of a seat are within the number of workers, and so that their sums fit.
    fn look(&self, place: &mut Place<V>)
        requires lock { (place.old.table_id ≡ self.now.table.shared.table_id) × (place.old.me.0.workers ≡ self.now.workers) }
        requires free { place.old.me.0.stage ≡ Free }
        ensures same { (place.new.table_id ≡ place.old.table_id) × (place.new.id ≡ place.old.id) × (place.new.me ≡ place.old.me) }
        ensures few { place.old.me.0.spare + place.old.me.0.gathered ≤ self.now.workers }
    {
        self.table.shared.load::<Look>(place, 0);
    }

    /// Waits until no seat is in a hold, and begins one. The value has the lock's base. Its history begins with all that the
    /// seat has seen, and the entries of the seat's number in it are the seat's own, each once and in order.
    pub fn enter<R: Wait>(&self, rt: &R, seat: Seat<V>) -> Held<V>
        requires lock { IsSeatOf self.now seat }
        ensures lock { IsHeldOf self.now result }
        ensures counts { (result.number ≡ seat.number) × (result.spare ≡ seat.spare) × (result.gathered ≡ seat.gathered) }
        ensures base { V.base_of result.value ≡ V.base_of (first_of self.now) }
        ensures begins { Begins (V.told_of result.value) (seen seat) }
        ensures own { entries_of seat.number (V.told_of result.value) ≡ own seat }
        ensures found { found result ≡ V.told_of result.value }
        ensures stays { own_then result ≡ own seat }
    {
        let Seat {
            number,
            spare,
            gathered,
            mut place,
        } = seat;
        self.claim(rt, &mut place, number);
        let found = self.table.shared.exchange(&mut place, 0, None);
        let Some(value) = found else { unreachable!() };
        Held {
            value,
            number,
            spare,
            gathered,
            place,
        }
    }

    fn claim<R: Wait>(&self, rt: &R, place: &mut Place<V>, number: u8)
        requires lock { place.old.table_id ≡ self.now.table.shared.table_id }
        requires free { (place.old.me.0.stage ≡ Free) × (place.old.me.0.number ≡ number) }
        ensures same { (place.new.table_id ≡ place.old.table_id) × (place.new.id ≡ place.old.id) }
        ensures claims { Claims V.base_of V.told_of place.old.me place.new.me }
    {
        for _ in rt.forever() {
            let name = number as u64 + 1;
            let found = self
                .table
                .shared
                .compare_exchange::<Claim>(place, 0, 0, name);
            if found == 0 {
                return;
            }
            self.table.shared.park(rt, 0, (found & 0xffff_ffff) as u32);
        }
        unreachable!()
    }

    /// Ends a hold. The value must have the lock's base, and the history that was found at `enter` or that with one entry of
    /// this seat more. The seat has then seen this history, and the new entry, if there is one, is the last of its own.
    pub fn leave(&self, held: Held<V>) -> Seat<V>
        requires lock { IsHeldOf self.now held }
        requires base { V.base_of held.value ≡ V.base_of (first_of self.now) }
        requires history { IsNext held.number (found held) (V.told_of held.value) }
        ensures lock { IsSeatOf self.now result }
        ensures counts { (result.number ≡ held.number) × (result.spare ≡ held.spare) × (result.gathered ≡ held.gathered) }
        ensures seen { seen result ≡ V.told_of held.value }
        ensures own { own result ≡ own_then held ++ drop (length (found held)) (V.told_of held.value) }
        ensures all { own result ≡ entries_of result.number (seen result) }
    {
        let Held {
            value,
            number,
            spare,
            gathered,
            mut place,
        } = held;
        self.tell::<Brand>(&mut place, &value);
        let hole = self.table.shared.exchange(&mut place, 0, Some(value));
        let None = hole else { unreachable!() };
        self.table.shared.store::<Release>(&mut place, 0, 0);
        self.table.shared.wake_one(0);
        Seat {
            number,
            spare,
            gathered,
            place,
        }
    }

    // Stores the length of the history. `M` names the entries that are new.
    fn tell<M: Adds>(&self, place: &mut Place<V>, value: &V)
        requires lock { place.old.table_id ≡ self.now.table.shared.table_id }
        requires holding { place.old.me.0.stage ≡ Holding }
        requires own { AllOf place.old.me.0.number M.more }
        requires told { V.told_of value.now ≡ place.old.me.0.seen ++ M.more }
        ensures same { (place.new.table_id ≡ place.old.table_id) × (place.new.id ≡ place.old.id) }
        ensures told { place.new.me ≡ (with_more M.more place.old.me.0, place.old.me.1) }
    {
        let entries = value.told().len() as u64;
        self.table.shared.store::<Tell<M>>(place, 1, entries);
    }

    /// Ends the lock and gives its value back. The seat must stand for all seats that were made, and have all numbers that
    /// were not handed out. The value has the lock's base; its history begins with all that the seat has seen, and the
    /// entries of the seat's number in it are the seat's own, each once and in order.
    pub fn close(self, seat: Seat<V>) -> V
        requires lock { IsSeatOf self seat }
        requires whole { seat.spare + seat.gathered ≡ self.workers }
        ensures base { V.base_of result ≡ V.base_of (first_of self) }
        ensures begins { Begins (V.told_of result) (seen seat) }
        ensures own { entries_of seat.number (V.told_of result) ≡ own seat }
    {
        let FabricLock { table, workers: _ } = self;
        let Seat {
            number: _,
            spare: _,
            gathered: _,
            place,
        } = seat;
        let mut closed = table.close_with(place);
        let slot = closed.take(0);
        closed.free();
        let Some(value) = slot else { unreachable!() };
        value
    }
}
