// Words after numbers.
ghost use Rattle.std.specs.Prelude.{◌≡◌, ◌==◌, if◌then◌else◌};

// The word after so many: `one` after 1, and else `many`.
pub(crate) fn noun(count: u32, one: &'static str, many: &'static str) -> &'static str
    ensures { result.now ≡ (if count == 1 then one.now else many.now) }
{
    if count == 1 { one } else { many }
}
