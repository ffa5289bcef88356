// Salvage under its C name.
ghost use Rattle.std.specs.Prelude.{◌≡◌, cond, eqb};
ghost use Rattle.rules.specs.Salvage.{saved_length, dropped_count, spare_was, pad_was, length_was, salvage_number, salvage_bytes, salvage_list};

// Saves what can be saved of a file; where accepted, the file written, the cells dropped, the length, how many were dropped, and 1 or 0 for spare bits, pad bits and a wrong length are written.
pub fn daybook_salvage(
    file: &[u8],
    out: &mut [u8],
    dropped: &mut [u32],
    length: &mut usize,
    count: &mut usize,
    spare: &mut u32,
    pad: &mut u32,
    wrong_length: &mut u32,
) -> u32
    ensures number { result ≡ salvage_number file.now out.old dropped.old }
    ensures bytes { out.new ≡ salvage_bytes file.now out.old dropped.old }
    ensures list { dropped.new ≡ salvage_list file.now out.old dropped.old }
    ensures length { length.new ≡ cond (eqb result 0) (saved_length file.now) length.old }
    ensures count { count.new ≡ cond (eqb result 0) (dropped_count file.now) count.old }
    ensures spare { spare.new ≡ cond (eqb result 0) (cond (spare_was file.now) 1 0) spare.old }
    ensures pad { pad.new ≡ cond (eqb result 0) (cond (pad_was file.now) 1 0) pad.old }
    ensures wrong { wrong_length.new ≡ cond (eqb result 0) (cond (length_was file.now) 1 0) wrong_length.old }
{
    match daybook::salvage(file, out, dropped) {
        Ok(saved) => {
            *length = saved.length;
            *count = saved.dropped;
            *spare = saved.spare as u32;
            *pad = saved.pad as u32;
            *wrong_length = saved.wrong_length as u32;
            0
        }
        Err(refusal) => refusal.number(),
    }
}
