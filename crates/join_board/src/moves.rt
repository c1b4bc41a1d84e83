//! The steps on the words of the table.
ghost use Rattle.std.specs.Prelude.{◌≡◌, ◌+◌, ◌-◌, ◌^◌, ◌<◌, ◌≤◌, [], ◌∷◌, Some, None, MatchOption, MatchBool, cond};
ghost use Rattle.join_board.specs.Inside.Views.{took_view, missed_view, gave_view, back_view, quiet_view, ahead_view, behind_view, alive_view, over_view, counted_view, asked_limit_view, asked_memory_view, unset_view, found_limit_view, found_memory_view};
ghost use Rattle.join_board.specs.Logs.{size, spawned, finished};
ghost use Rattle.join_board.specs.Inside.Plays.{Taken, Grew};

use crate::rule::{
    Adds, AsksLimit, AsksMemory, Counts, Finds, Gives, Looks, Place, Subtracts, Takes, Top,
};
use crate::shard::Shard;

// The words: the count of live threads is word 0, that of the shard k is word 16 k + 16, the total is word 1040, the stop word 1056.

pub(crate) fn take(top: &Top, seat: &mut Place, shard: usize) -> Option<Shard>
    requires table { (seat.old.table_id ≡ top.now.table_id) × (top.now.table_id.words ≡ 1072) × (top.now.table_id.slots ≡ 64) × (shard < 64) }
    requires rests { (seat.old.me.1 ≡ []) × (seat.old.me.0.hand.hand ≡ 0) × (0 < seat.old.me.0.seats) }
    ensures same { seat.new.table_id ≡ seat.old.table_id }
    ensures found { MatchOption result (seat.new.me ≡ (missed_view seat.old.me.0 shard, []))
        (λ x. (seat.new.me ≡ (took_view seat.old.me.0 shard x, (shard, None) ∷ [])) × Taken seat.old.me.0 shard x) }
{
    if top.swap::<Takes>(seat, 16 * shard + 16, 1) == 0 {
        Some(top.exchange(seat, shard, None).unwrap())
    } else {
        None
    }
}

pub(crate) fn give(top: &Top, seat: &mut Place, shard: usize, value: Shard)
    requires table { (seat.old.table_id ≡ top.now.table_id) × (top.now.table_id.words ≡ 1072) × (top.now.table_id.slots ≡ 64) × (shard < 64) }
    requires holds { (seat.old.me.1 ≡ (shard, None) ∷ []) × (seat.old.me.0.hand.hand ≡ shard + 1) × Grew seat.old.me.0 shard value }
    ensures same { seat.new.table_id ≡ seat.old.table_id }
    ensures given { seat.new.me ≡ (gave_view seat.old.me.0 value, []) }
{
    let none = top.exchange(seat, shard, Some(value));
    drop(none);
    top.swap::<Gives>(seat, 16 * shard + 16, 0);
}

/// The shard as it was taken.
pub(crate) fn give_back(top: &Top, seat: &mut Place, shard: usize, value: Shard)
    requires table { (seat.old.table_id ≡ top.now.table_id) × (top.now.table_id.words ≡ 1072) × (top.now.table_id.slots ≡ 64) × (shard < 64) }
    requires holds { (seat.old.me.1 ≡ (shard, None) ∷ []) × (seat.old.me.0.hand.hand ≡ shard + 1) × (value ≡ seat.old.me.0.hand.copy) }
    ensures same { seat.new.table_id ≡ seat.old.table_id }
    ensures given { seat.new.me ≡ (back_view seat.old.me.0, []) }
{
    give(top, seat, shard, value);
}

/// With no step of the core.
pub(crate) fn give_quiet(top: &Top, seat: &mut Place, shard: usize, value: Shard)
    requires table { (seat.old.table_id ≡ top.now.table_id) × (top.now.table_id.words ≡ 1072) × (top.now.table_id.slots ≡ 64) × (shard < 64) }
    requires holds { (seat.old.me.1 ≡ (shard, None) ∷ []) × (seat.old.me.0.hand.hand ≡ shard + 1) × Grew seat.old.me.0 shard value }
    requires quiet { (size value ≡ size seat.old.me.0.hand.copy) × (spawned value ≡ spawned seat.old.me.0.hand.copy)
        × (finished value ≡ finished seat.old.me.0.hand.copy) }
    ensures same { seat.new.table_id ≡ seat.old.table_id }
    ensures given { seat.new.me ≡ (quiet_view seat.old.me.0 value, []) }
{
    give(top, seat, shard, value);
}

pub(crate) fn add_live(top: &Top, seat: &mut Place, spawns: bool)
    requires table { (seat.old.table_id ≡ top.now.table_id) × (top.now.table_id.words ≡ 1072) × (top.now.table_id.slots ≡ 64) }
    requires idle { (seat.old.me.0.live.ahead ≡ 0) × (seat.old.me.0.live.behind ≡ 0) × (0 < seat.old.me.0.seats) }
    ensures same { seat.new.table_id ≡ seat.old.table_id }
    ensures added { seat.new.me ≡ (ahead_view seat.old.me.0 (cond spawns 1 0), seat.old.me.1) }
{
    if spawns {
        top.fetch_add::<Adds>(seat, 0, 1);
    }
}

pub(crate) fn sub_live(top: &Top, seat: &mut Place, ends: bool)
    requires table { (seat.old.table_id ≡ top.now.table_id) × (top.now.table_id.words ≡ 1072) × (top.now.table_id.slots ≡ 64) }
    requires behind { seat.old.me.0.live.behind ≡ cond ends 1 0 }
    ensures same { seat.new.table_id ≡ seat.old.table_id }
    ensures subtracted { seat.new.me ≡ (behind_view seat.old.me.0 0, seat.old.me.1) }
{
    if ends {
        top.fetch_sub::<Subtracts>(seat, 0, 1);
    }
}

pub(crate) fn load_live(top: &Top, seat: &mut Place) -> bool
    requires { (seat.old.table_id ≡ top.now.table_id) × (top.now.table_id.words ≡ 1072) × (top.now.table_id.slots ≡ 64) }
    ensures same { seat.new.table_id ≡ seat.old.table_id }
    ensures found { MatchBool result (seat.new.me ≡ (over_view seat.old.me.0, seat.old.me.1)) (seat.new.me ≡ (alive_view seat.old.me.0, seat.old.me.1)) }
{
    top.load::<Looks>(seat, 0) == 0
}

/// The total before.
pub(crate) fn add_spent(top: &Top, seat: &mut Place, uncounted: u64) -> u64
    requires table { (seat.old.table_id ≡ top.now.table_id) × (top.now.table_id.words ≡ 1072) × (top.now.table_id.slots ≡ 64) }
    requires counts { uncounted ≡ seat.old.me.0.uncounted }
    ensures same { seat.new.table_id ≡ seat.old.table_id }
    ensures counted { (seat.new.me ≡ (counted_view seat.old.me.0 result, seat.old.me.1)) × (seat.old.me.0.stop.most ≤ result) × (result + uncounted < 2 ^ 64) }
{
    top.fetch_add::<Counts>(seat, 1040, uncounted)
}

pub(crate) fn ask_limit(top: &Top, seat: &mut Place)
    requires table { (seat.old.table_id ≡ top.now.table_id) × (top.now.table_id.words ≡ 1072) × (top.now.table_id.slots ≡ 64) × (0 < seat.old.me.0.seats) }
    requires over { seat.old.me.0.about.limit < seat.old.me.0.stop.most }
    ensures same { seat.new.table_id ≡ seat.old.table_id }
    ensures asked { seat.new.me ≡ (asked_limit_view seat.old.me.0, seat.old.me.1) }
{
    top.compare_exchange::<AsksLimit>(seat, 1056, 0, 1);
}

pub(crate) fn ask_memory(top: &Top, seat: &mut Place)
    requires table { (seat.old.table_id ≡ top.now.table_id) × (top.now.table_id.words ≡ 1072) × (top.now.table_id.slots ≡ 64) × (0 < seat.old.me.0.seats) }
    ensures same { seat.new.table_id ≡ seat.old.table_id }
    ensures asked { seat.new.me ≡ (asked_memory_view seat.old.me.0, seat.old.me.1) }
{
    top.compare_exchange::<AsksMemory>(seat, 1056, 0, 2);
}

pub(crate) fn load_stop(top: &Top, seat: &mut Place) -> u64
    requires { (seat.old.table_id ≡ top.now.table_id) × (top.now.table_id.words ≡ 1072) × (top.now.table_id.slots ≡ 64) }
    ensures same { seat.new.table_id ≡ seat.old.table_id }
    ensures unset { result ≡ 0 → seat.new.me ≡ (unset_view seat.old.me.0, seat.old.me.1) }
    ensures limit { result ≡ 1 → seat.new.me ≡ (found_limit_view seat.old.me.0, seat.old.me.1) }
    ensures memory { 1 < result → seat.new.me ≡ (found_memory_view seat.old.me.0, seat.old.me.1) }
{
    top.load::<Finds>(seat, 1056)
}
