//! Whole files, and whole pieces.

ghost use Rattle.std.specs.Prelude.{ℕ, ◌≡◌, ◌≢◌, ◌≤◌, ◌<◌, ◌+◌, ◌++◌, List, length, take, IfOk, OnOk, OnErr};
ghost use Rattle.replay_io.specs.Outside.{Rose, with_more, HandsOut, Gains, AsksOnce};

use crate::faults::{Failed, ReadFault};
use crate::sink::Sink;
use crate::store::Store;

/// How reading a file to its end, or past a limit, ended.
#[derive(Clone, Copy, Debug, PartialEq, Eq)]
pub enum ReadEnd {
    /// All bytes were read, at most as many as the limit.
    Whole,
    /// The file has more bytes than the limit.
    Over,
}

// How many bytes one call of a store is asked for.
const PIECE_BYTES: usize = 16_384;

/// Appends the bytes of the file under a name to `out`, at most `limit` of them, and asks for the name once. After a
/// fault `out` has gained a prefix of the bytes.
pub fn read_all<S: Store>(
    store: &mut S,
    name: &str,
    limit: u32,
    out: &mut Vec<u8>,
) -> Result<ReadEnd, ReadFault>
    ensures gains { (gained : List ℕ) × (out.new.items ≡ out.old.items ++ gained)
        × (length gained ≤ limit) × Gains result (S.stands store.old name.now) limit gained (S.left store.new) }
    ensures asks { AsksOnce result name.now (S.asked store.old) (S.asked store.new) }
    ensures failed { result ≡ Err ReadFault.Failed → Rose (S.faults store.old) (S.faults store.new) }
    ensures quiet { result ≢ Err ReadFault.Failed → S.faults store.new ≡ S.faults store.old }
    ensures stands { (other : List ℕ) → S.stands store.new other ≡ S.stands store.old other }
    ensures counts { S.faults store.old ≤ S.faults store.new }
{
    store.begin_read(name)?;
    read_rest(store, limit as usize, out)
}

// Appends what is left of the file begun last to `out`, at most `limit` bytes of it.
fn read_rest<S: Store>(store: &mut S, limit: usize, out: &mut Vec<u8>) -> Result<ReadEnd, ReadFault>
    ensures gains { (gained : List ℕ) × (out.new.items ≡ out.old.items ++ gained)
        × (length gained ≤ limit) × Gains result (S.left store.old) limit gained (S.left store.new) }
    ensures asked { S.asked store.new ≡ S.asked store.old }
    ensures failed { result ≡ Err ReadFault.Failed → Rose (S.faults store.old) (S.faults store.new) }
    ensures quiet { result ≢ Err ReadFault.Failed → S.faults store.new ≡ S.faults store.old }
    ensures stands { (other : List ℕ) → S.stands store.new other ≡ S.stands store.old other }
    ensures counts { S.faults store.old ≤ S.faults store.new }
{
    let mut buf = [0; PIECE_BYTES];
    let mut room = limit;
    loop {
        let count = read_piece(store, &mut buf, room, out)?;
        if count == 0 {
            return Ok(ReadEnd::Whole);
        }
        if count > room {
            return Ok(ReadEnd::Over);
        }
        room -= count;
    }
}

// Appends the bytes that one call of the store hands out to `out`, at most `room` of them, and answers how many were
// handed out.
fn read_piece<S: Store>(
    store: &mut S,
    buf: &mut [u8],
    room: usize,
    out: &mut Vec<u8>,
) -> Result<usize, ReadFault>
    ensures within { IfOk result (λ count. count ≤ length buf.new) }
    ensures bytes { IfOk result (λ count. HandsOut (S.left store.old) (S.left store.new) buf.new count) }
    ensures gains { IfOk result (λ count. out.new.items ≡ out.old.items ++ take room (take count buf.new)) }
    ensures err { OnErr result (out.new.items ≡ out.old.items) }
    ensures asked { S.asked store.new ≡ S.asked store.old }
    ensures failed { result ≡ Err ReadFault.Failed → Rose (S.faults store.old) (S.faults store.new) }
    ensures quiet { result ≢ Err ReadFault.Failed → S.faults store.new ≡ S.faults store.old }
    ensures stands { (other : List ℕ) → S.stands store.new other ≡ S.stands store.old other }
    ensures counts { S.faults store.old ≤ S.faults store.new }
{
    let count = store.take(buf)?;
    out.extend_from_slice(&buf[..count.min(room)])?;
    Ok(count)
}

/// Writes a whole piece. After a failure a prefix of it is written.
pub fn write_all_of<K: Sink>(sink: &mut K, bytes: &[u8]) -> Result<(), Failed>
    ensures ok { OnOk result (K.written sink.new ≡ with_more (K.written sink.old) bytes.now) }
    ensures err { OnErr result ((count : ℕ)
        × (K.written sink.new ≡ with_more (K.written sink.old) (take count bytes.now))) }
    ensures failed { OnErr result (Rose (K.faults sink.old) (K.faults sink.new)) }
    ensures quiet { OnOk result (K.faults sink.new ≡ K.faults sink.old) }
    ensures counts { K.faults sink.old ≤ K.faults sink.new }
{
    let mut done = 0;
    while done < bytes.len() {
        done += sink.put(&bytes[done..])?;
    }
    Ok(())
}
