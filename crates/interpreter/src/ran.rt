// How a run came out.

// What a run promises names each of these answers, with the condition that it is given under: so they are one enum, and no Result.
#[derive(Clone, Copy)]
pub enum Ran {
    // how many numbers were shown, and how many tests were done
    Stopped(usize, u64),
    // the place of the test that failed first
    Failed(usize, usize, u64),
    More(usize, u64),
    // the table isn't one of the program that holds
    BadTable,
    // the rows are no program
    Unread,
    // more is shown than there is room for
    OutFull,
    // too few work numbers
    Small,
}
