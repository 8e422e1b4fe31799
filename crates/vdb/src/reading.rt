//! Reads a script whole.

ghost use Rattle.std.specs.Prelude.{◌≡◌, ◌<◌, []};
ghost use Rattle.vdb.specs.Reading.{ReadsSome, IsRead};

use vdb_base::Feed;

/// The most bytes that a script may have.
pub const SCRIPT_LIMIT: usize = 16_777_216;

/// How many bytes are asked for at once.
const BLOCK: usize = 65_536;

#[derive(Clone, Copy, Debug, PartialEq, Eq)]
pub enum ReadEnd {
    Whole,
    /// The feed gave more than the limit.
    TooLong,
    Failed,
    Memory,
}

#[derive(Clone, Copy, Debug, PartialEq, Eq)]
pub enum Turn {
    Taken,
    Nothing,
    Failed,
    Memory,
}

/// Takes some more bytes, at most as many as there is room for.
fn read_some<I: Feed>(script: &mut I, bytes: &mut Vec<u8>, room: usize) -> Turn
    requires { 0 < room }
    ensures { ReadsSome (I.told script.old) (I.told script.new) bytes.old.items bytes.new.items room result }
{
    let mut block = [0u8; BLOCK];
    let most = room.min(BLOCK);
    let (front, _) = block.split_at_mut(most);
    match script.read(front) {
        Err(_) => Turn::Failed,
        Ok(count) => {
            if count == 0 {
                return Turn::Nothing;
            }
            let (taken, _) = front.split_at(count);
            if bytes.extend_from_slice(taken).is_err() {
                return Turn::Memory;
            }
            Turn::Taken
        }
    }
}

/// Reads a script to its end, or past the limit. The bytes up to the limit are there, also where the feed fails.
pub fn read_script<I: Feed>(script: &mut I, bytes: &mut Vec<u8>) -> ReadEnd
    requires { bytes.old.items ≡ [] }
    ensures { IsRead (I.told script.old) (I.told script.new) bytes.new.items result }
{
    'turns: while bytes.len() <= SCRIPT_LIMIT {
        let room = SCRIPT_LIMIT + 1 - bytes.len();
        match read_some(script, bytes, room) {
            Turn::Taken => {}
            Turn::Nothing => return ReadEnd::Whole,
            Turn::Failed => return ReadEnd::Failed,
            Turn::Memory => return ReadEnd::Memory,
        }
    }
    bytes.truncate(SCRIPT_LIMIT);
    ReadEnd::TooLong
}
