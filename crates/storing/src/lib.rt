// A field's level or quantiser goes to its place in a lent buffer, as far as there is room.
#![tactic(auto)]

ghost use Rattle.std.specs.Prelude.{◌+◌, ◌^◌, ◌<◌};
ghost use Rattle.std.specs.Option.{option_to_list};
ghost use Rattle.storing.specs.Stored.{Stored};

// A value, where there is one, goes to its place, if there is room. Returns the next place.
// Ruled out: the last place written where `at` is past the end; the same place again after a value for which there was no room.
// Kept: a struct of a buffer and its place, as `copying::Writer`, would be lent through the walk three times, each with a clause that it is still the same buffer, for these lines.
pub fn put<T: Copy>(value: Option<T>, buffer: &mut [T], at: usize) -> usize
    requires { at + 1 < 2 ^ 64 }
    ensures { Stored buffer.old buffer.new at result (option_to_list value) }
{
    let Some(value) = value else {
        return at;
    };
    if at < buffer.len() {
        buffer[at] = value;
    }
    at + 1
}
