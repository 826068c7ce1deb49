// Taking the numbers handed in, and showing numbers.

ghost use Rattle.std.specs.Prelude.{◌≡◌, ◌+◌, length, pos, if◌then◌else◌, Some, None, nat_lt, slice_index_or, slice_set};
ghost use Rattle.std.specs.Option.{option_map};

// The next number handed in, or 0 where there is none, and how many are taken then.
pub(crate) fn ask(asked: &[i64], taken: usize) -> (i64, usize)
    ensures number { result.0 ≡ slice_index_or asked.now taken (pos 0) }
    ensures taken { result.1 ≡ (if nat_lt taken (length asked.now) then taken + 1 else taken) }
{
    match asked.get(taken) {
        Some(z) => (*z, taken + 1),
        None => (0, taken),
    }
}

// Shows a number behind so many, if there is room for it.
pub(crate) fn show(shown: &mut [i64], count: usize, v: i64) -> Option<()>
    ensures { option_map (λ _. shown.new) result ≡ (if nat_lt count (length shown.old) then Some (slice_set shown.old count v) else None) }
{
    // not by `get_mut`, after which no clause says what the slice holds
    if count >= shown.len() {
        return None;
    }
    shown[count] = v;
    Some(())
}
