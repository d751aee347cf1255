//! Texts that are put into a host's room.

ghost use Rattle.host_answers.specs.Putting.{IsPut};

/// Puts as much of a text there as there is room for, and gives its whole length.
pub fn put(text: &[u8], room: &mut [u8]) -> u64
    ensures { IsPut text.now room.old room.new result }
{
    let count = room.len();
    if text.len() <= count {
        room[..text.len()].copy_from_slice(text);
    } else {
        room.copy_from_slice(&text[..count]);
    }
    text.len() as u64
}
