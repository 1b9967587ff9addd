// Tables by number.
ghost use Rattle.std.specs.Prelude.{◌≡◌, None, false, slice_set};
ghost use Rattle.coherence_model.specs.Stages.{Stage};
ghost use Rattle.host_record.specs.Tables.{lookup, place_or, set_all, set_at};

/// The number at a place of a table, if there is one.
pub fn number_at(numbers: &[Option<u32>], place: usize) -> Option<u32>
    ensures { result ≡ lookup numbers.now place }
{
    match numbers.get(place) {
        Some(number) => *number,
        None => None,
    }
}

/// Sets a place of a table, if the table has it.
pub fn set<T: Copy>(table: &mut [T], place: usize, to: T)
    ensures { table.new ≡ slice_set table.old place to }
{
    if place < table.len() {
        table[place] = to;
    }
}
