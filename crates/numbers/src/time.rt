// time.rs on a clock of u64 microseconds: an instant and a duration are both counts. What is not
// here is one of the crate's other functions or plain u64: `+=` is `saturating_add`,
// `div_duration_f64` followed by `>=` is `fraction_reached`, `zero` is 0, `from_micros` changes
// nothing, `is_zero` is `== 0`.
ghost use Rattle.std.specs.Prelude.{◌≡◌, ◌-◌};

// The time from `earlier` to `now`, none where `earlier` is the later one: the contract's minus is
// that of the natural numbers.
pub fn saturating_duration_since(now: u64, earlier: u64) -> u64
    ensures { result ≡ now - earlier }
{
    super::saturating_sub(now, earlier)
}
