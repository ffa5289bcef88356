// The cells that are dropped, listed: two numbers for each.
ghost use Rattle.std.specs.Prelude.{◌≡◌, ◌++◌, map, ◌+◌, ◌*◌, ◌≤◌, length as size, drop};
ghost use Rattle.std.proofs.lemmas.List.Edits.{sets};
ghost use Rattle.salvaging.specs.Reasons.{why_number};
ghost use Rattle.salvaging.specs.Listed.{pair_of, pairs_in};

use crate::reasons::Reason;

// Puts a cell's number and that of why it is dropped, or nothing where it is kept. Gives the place after them.
fn put_dropped(list: &mut [u32], at: usize, c: u32, why: Option<Reason>) -> usize
    requires { at + 2 ≤ size list.old }
    ensures place { result ≡ at + size (pair_of c (why_number why)) }
    ensures list { list.new ≡ sets list.old at (pair_of c (why_number why)) }
{
    let Some(reason) = why else {
        return at;
    };
    list[at] = c;
    list[at + 1] = reason.number();
    at + 2
}

// Lists the cells that are dropped, at the front of the list. `whys` has for each cell why it is dropped, or none.
pub fn list_dropped(whys: &[Option<Reason>], list: &mut [u32])
    requires few { size whys.now ≤ 4096 }
    requires room { 2 * size whys.now ≤ size list.old }
    ensures { list.new ≡ pairs_in (map why_number whys.now) (size whys.now) ++ drop (size (pairs_in (map why_number whys.now) (size whys.now))) list.old }
{
    let mut at: usize = 0;
    for (c, why) in whys.iter().enumerate() {
        at = put_dropped(list, at, c as u32, *why);
    }
}
