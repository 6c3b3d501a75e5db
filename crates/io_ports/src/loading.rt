// A whole text from a shelf.
ghost use Rattle.std.specs.Prelude.{◌≡◌, true, false, ◌^◌, ◌<◌, ◌≤◌, List, ℕ, vec_len, IfOk, OnOk, IsErrOf};
ghost use Rattle.io_ports.specs.Ports.{Rose, WhereTold, IsText, IsLongText, BeginsText};

use crate::Shelf;
use std::alloc::Global;

/// Why a text isn't loaded.
#[derive(Clone, Copy, Debug, PartialEq, Eq)]
pub enum LoadFault {
    /// A read of the shelf failed.
    Failed,
    /// The text has more bytes than the limit.
    TooLong,
    /// There was no memory for the text.
    Memory,
}

// The most bytes that one read asks for.
const PIECE: usize = 4096;

/// The whole text of this name up to its end, if it has at most `limit` bytes.
///
/// `Failed` comes only where the shelf's count of this name rose in this call, or stands at its
/// last value. `TooLong` comes, where the shelf tells its map, only where the text has more than
/// `limit` bytes, and such a text is never `Ok`. `Memory` may come at any text.
pub fn load<S: Shelf>(
    alloc: Global,
    shelf: &mut S,
    name: &str,
    limit: usize,
) -> Result<Vec<u8>, LoadFault>
    requires { limit < 2 ^ 32 }
    ensures whole { IfOk result (λ text. WhereTold (S.files shelf.old) (IsText name.now text.items)) }
    ensures short { IfOk result (λ text. vec_len text ≤ limit) }
    ensures too_long { IsErrOf result LoadFault.TooLong → WhereTold (S.files shelf.old) (IsLongText name.now limit) }
    ensures failed { IsErrOf result LoadFault.Failed → Rose (S.faults shelf.old name.now) (S.faults shelf.new name.now) }
    ensures kept { S.files shelf.new ≡ S.files shelf.old }
    ensures later { (other : List ℕ) → S.faults shelf.old other ≤ S.faults shelf.new other }
{
    let mut text = Vec::new(alloc);
    while text.len() <= limit {
        if read_more(shelf, name, limit + 1, &mut text)? {
            return Ok(text);
        }
    }
    Err(LoadFault::TooLong)
}

// Reads one more piece, up to `room` bytes in all, and says whether the text is at its end.
fn read_more<S: Shelf>(
    shelf: &mut S,
    name: &str,
    room: usize,
    text: &mut Vec<u8>,
) -> Result<bool, LoadFault>
    requires { vec_len text.old < room }
    ensures begins { OnOk result (WhereTold (S.files shelf.old) (λ files.
        BeginsText name.now text.old.items files → BeginsText name.now text.new.items files)) }
    ensures ends { IfOk result (λ ended. ended ≡ true → WhereTold (S.files shelf.old) (λ files.
        BeginsText name.now text.old.items files → IsText name.now text.new.items files)) }
    ensures grows { IfOk result (λ ended. ended ≡ false → vec_len text.old < vec_len text.new) }
    ensures ended { IfOk result (λ ended. ended ≡ true → text.new.items ≡ text.old.items) }
    ensures within { OnOk result (vec_len text.new ≤ room) }
    ensures failed { IsErrOf result LoadFault.Failed → Rose (S.faults shelf.old name.now) (S.faults shelf.new name.now) }
    ensures not_long { IsErrOf result LoadFault.TooLong → ⊥ }
    ensures kept { S.files shelf.new ≡ S.files shelf.old }
    ensures later { (other : List ℕ) → S.faults shelf.old other ≤ S.faults shelf.new other }
{
    let mut buf = [0u8; PIECE];
    let want = PIECE.min(room - text.len());
    let Ok(count) = shelf.read(name, text.len() as u64, &mut buf[..want]) else {
        return Err(LoadFault::Failed);
    };
    if count == 0 {
        return Ok(true);
    }
    if text.extend_from_slice(&buf[..count]).is_err() {
        return Err(LoadFault::Memory);
    }
    Ok(false)
}
