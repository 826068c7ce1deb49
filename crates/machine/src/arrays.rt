// Reading and writing arrays. What the three functions ask is a record, `Stands`, named by each: it is of an index too, so no
// invariant of the layout.

ghost use Rattle.std.specs.Prelude.{◌≡◌, ◌+◌, ◌≤◌, length, pos, if◌then◌else◌, Some, None, slice_index_or, slice_set};
ghost use Rattle.std.specs.Option.{option_map};
ghost use Rattle.program.specs.Runs.{index_of, index};
ghost use Rattle.machine.specs.Acting.{words_at, start_at, Stands};

use program::Array;

// Where the arrays lie in memory: the rows have their lengths.
#[derive(Clone, Copy)]
pub(crate) struct Layout<'a> {
    pub(crate) rows: &'a [i64],
    pub(crate) starts: &'a [i64],
}

impl<'a> Layout<'a> {
    // Where the array has an index, if it is one, which is tested unless it is sure. A `try_from` would test it in any case.
    fn cell(&self, sure: bool, a: Array, i: i64) -> Option<usize>
        requires { Stands self.now.rows.now self.now.starts.now sure a.0 i }
        ensures { result ≡ (if index_of (words_at self.now.rows.now a.0) i then Some (start_at self.now.starts.now a.0 + index i) else None) }
    {
        if sure || i >= 0 && i < self.rows[2 + a.0] {
            return Some(self.starts[a.0] as usize + i as usize);
        }
        None
    }

    // What the array has at the index.
    pub(crate) fn load(&self, memory: &[i64], sure: bool, a: Array, i: i64) -> Option<i64>
        requires stands { Stands self.now.rows.now self.now.starts.now sure a.0 i }
        requires room { start_at self.now.starts.now a.0 + words_at self.now.rows.now a.0 ≤ length memory.now }
        ensures { result ≡ (if index_of (words_at self.now.rows.now a.0) i then Some (slice_index_or memory.now (start_at self.now.starts.now a.0 + index i) (pos 0)) else None) }
    {
        let k = self.cell(sure, a, i)?;
        Some(memory[k])
    }

    // The array gets the number at the index.
    pub(crate) fn store(
        &self,
        memory: &mut [i64],
        sure: bool,
        a: Array,
        i: i64,
        v: i64,
    ) -> Option<()>
        requires stands { Stands self.now.rows.now self.now.starts.now sure a.0 i }
        requires room { start_at self.now.starts.now a.0 + words_at self.now.rows.now a.0 ≤ length memory.old }
        ensures { option_map (λ _. memory.new) result ≡ (if index_of (words_at self.now.rows.now a.0) i then Some (slice_set memory.old (start_at self.now.starts.now a.0 + index i) v) else None) }
    {
        let k = self.cell(sure, a, i)?;
        memory[k] = v;
        Some(())
    }
}
