// Salvage: of a day file whose head is right, the cells that can be saved, written as a file that Load accepts, and a list of those that are dropped.
#![tactic(auto)]

mod answers;
mod cells;
mod listing;
mod reasons;

ghost use Rattle.std.specs.Prelude.{◌≡◌, [], ◌+◌, ◌*◌, ◌^◌, ◌≤◌};
ghost use Rattle.rules.specs.File.{head_dim, head_vertices};
ghost use Rattle.rules.specs.Salvage.{Headed, pad_was, salvage_number, salvage_given, salvage_bytes, salvage_list};
ghost use Rattle.kinds.specs.Refusals.{answer_number, given};
ghost use Rattle.salvaging.specs.Answers.{saved_given};

pub use answers::Saved;
use cells::{DayFile, keep_cells};
use dayfile::Header;
use kinds::Refusal;
use listing::list_dropped;
pub use reasons::Reason;

// Whether pad bits are set: those that are there, up to the length that the header asks.
fn pad_set(file: &DayFile<'_>) -> bool
    ensures { result ≡ pad_was file.now.bytes.now }
{
    let DayFile { bytes, head } = *file;
    let end = head.end_bit();
    let width = 8 * head.length() - end;
    bits::read_field(bytes, end, width as u32) != 0
}

// The head with k cells, and spare bits zero.
fn corrected(head: Header, k: u32) -> Header
    requires { k ≤ 4096 }
    ensures { result.0 ≡ 2 ^ 30 * head_dim head.0 + 2 ^ 16 * head_vertices head.0 + 2 ^ 3 * k }
{
    Header::new(head.dimension(), head.vertices(), k)
}

// Salvage of a file whose head has no fault of 1 to 4. Refusals: 18, 21.
fn save(file: &[u8], out: &mut [u8], dropped: &mut [u32]) -> Result<Saved, Refusal>
    requires { Headed file.now }
    ensures number { answer_number result ≡ salvage_number file.now out.old dropped.old }
    ensures given { given [] saved_given result ≡ salvage_given file.now out.old dropped.old }
    ensures bytes { out.new ≡ salvage_bytes file.now out.old dropped.old }
    ensures list { dropped.new ≡ salvage_list file.now out.old dropped.old }
{
    let head = dayfile::header(file);
    let count = head.cells();
    let mut vertices = [0u32; 16384];
    let mut whys = [None; 4096];
    let day = DayFile { bytes: file, head };
    let k = keep_cells(&day, &mut vertices, &mut whys);
    let new_head = corrected(head, k as u32);
    let length = new_head.length();
    let buffer_short = out.len() < length;
    let list_short = dropped.len() < 2 * count as usize;
    if buffer_short {
        return Err(Refusal::BufferTooShort);
    }
    if list_short {
        return Err(Refusal::ListLength);
    }
    let n = head.corners();
    dayfile::write(new_head, &vertices[..n * k], out);
    list_dropped(&whys[..count as usize], dropped);
    Ok(Saved {
        length,
        dropped: count as usize - k,
        spare: head.spare() > 0,
        pad: pad_set(&day),
        wrong_length: file.len() != head.length(),
    })
}

// Keeps every whole cell that Load would not fault, writes the file of those kept at the front of `out`, and two numbers for each cell dropped at the front of `dropped`: its old number, and 6, 7, 8 or 23. Refusals: 1 to 4, 18, 21.
pub fn salvage(file: &[u8], out: &mut [u8], dropped: &mut [u32]) -> Result<Saved, Refusal>
    ensures number { answer_number result ≡ salvage_number file.now out.old dropped.old }
    ensures given { given [] saved_given result ≡ salvage_given file.now out.old dropped.old }
    ensures bytes { out.new ≡ salvage_bytes file.now out.old dropped.old }
    ensures list { dropped.new ≡ salvage_list file.now out.old dropped.old }
{
    if let Err(refusal) = dayfile::head_fault(file) {
        if refusal.number() <= 4 {
            return Err(refusal);
        }
    }
    save(file, out, dropped)
}
