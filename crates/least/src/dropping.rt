// Which ends a guess widens, and taking out those that confirming did not move.

ghost use Rattle.std.specs.Prelude.{◌≡◌, length};

// How many ends the guess widens. The `as` is proved to lose nothing, so a `try_from` would be no plainer.
pub(crate) fn widened(table: &[i64], guess: &[i64]) -> u64
    requires { length guess.now ≡ length table.now }
{
    table.iter().zip(guess).filter(|(t, g)| t != g).count() as u64
}

// Takes out the ends that the guess widens and that are in `moved` where they are in the table.
pub(crate) fn drop_unmoved(table: &[i64], guess: &mut [i64], notes: &mut [i64], moved: &[i64])
    requires guess { length guess.old ≡ length table.now }
    requires notes { length notes.old ≡ length table.now }
    requires moved { length moved.now ≡ length table.now }
{
    let ends = guess.iter_mut().zip(notes);
    for ((g, note), (t, m)) in ends.zip(table.iter().zip(moved)) {
        if g != t && m == t {
            *g = *t;
            *note = 0;
        }
    }
}
