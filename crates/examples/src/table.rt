ghost use Rattle.std.specs.Prelude.{◌≡◌, length};
ghost use Rattle.examples.specs.Table.{examples, AllHold};

/// How many examples there are. The contract says that each holds: that the library's definitions
/// give what stands beside it.
pub fn example_count() -> usize
    ensures counts { result ≡ length examples }
    ensures hold { AllHold examples }
{
    18
}
