// Places in the texts of a shelf.
ghost use Rattle.std.specs.Prelude.{◌≡◌, ◌++◌, length, take, drop, min};

/// A place in the text of an entry: so many of its bytes stand before it.
#[derive(Clone, Copy)]
pub(crate) struct Place {
    pub(crate) entry: usize,
    pub(crate) offset: usize,
}

impl Place {
    ghost use Rattle.std.specs.Prelude.{◌≡◌, ◌<◌, ◌+◌, ◌++◌, length, take, drop, min, Some, IfSome, option_map};
    ghost use Rattle.mb_outer.specs.Shelf.{held, shelf_of};
    ghost use Rattle.mb_outer.specs.machine.Place.{rest_at, bytes_at, IsOn};
    ghost use Rattle.mb_outer.specs.ShelfState.{read_answer, filled};
    ghost use Rattle.mb_outer.specs.declared.library.Got.TheVariants as Got;

    // The start of the first entry with that name.
    pub(crate) fn of_name(shelf: &[(String, Vec<u8>)], name: &str) -> Option<Place>
        ensures on { IfSome result (IsOn shelf.now) }
        ensures text { rest_at (shelf_of shelf.now) result ≡ held name.now (shelf_of shelf.now) }
    {
        for entry in 0..shelf.len() {
            if shelf[entry].0.as_str() == name {
                return Some(Place { entry, offset: 0 });
            }
        }
        None
    }

    // Gets at most a piece into the front of the buffer, and goes on behind what was read.
    pub(crate) fn read(
        &mut self,
        shelf: &[(String, Vec<u8>)],
        piece: usize,
        into: &mut [u8],
    ) -> usize
        requires on { IsOn shelf.now self.old }
        ensures on { IsOn shelf.now self.new }
        ensures count { Got.Bytes result ≡ read_answer
            (bytes_at (shelf_of shelf.now) self.old (min piece (length into.old))) }
        ensures front { into.new ≡ filled into.old
            (bytes_at (shelf_of shelf.now) self.old (min piece (length into.old))) }
        ensures rest { rest_at (shelf_of shelf.now) (Some self.new)
            ≡ option_map (drop result) (rest_at (shelf_of shelf.now) (Some self.old)) }
    {
        let rest = &shelf[self.entry].1.as_slice()[self.offset..];
        let count = copy_front(rest, piece, into);
        self.offset += count;
        count
    }
}

// Copies at most a piece to the front of the buffer, as far as both reach.
fn copy_front(from: &[u8], piece: usize, into: &mut [u8]) -> usize
    ensures count { result ≡ min (min piece (length into.old)) (length from.now) }
    ensures front { into.new ≡ take result from.now ++ drop result into.old }
{
    let count = piece.min(into.len()).min(from.len());
    into[..count].copy_from_slice(&from[..count]);
    count
}
