//! The front of a trace: the bytes that a sweep looks at.
ghost use Rattle.std.specs.Prelude.{◌≡◌, ◌≢◌, ◌≤◌, ◌<◌, ◌+◌, length, take, drop, IfOk, OnErr};
ghost use Rattle.std.specs.Io.KnownBytes.{Consumes, IsAtEnd, Keeps};
ghost use Rattle.ft_base.specs.Count.{Blames, Rose};

use ft_base::{Failed, Source};

/// Why reading a trace stopped.
#[derive(Clone, Copy, Debug, PartialEq, Eq)]
pub(crate) enum ReadTo {
    /// The trace has ended.
    End,
    /// The source failed.
    Fault,
    /// The buffer has no more room.
    Limit,
}

/// Reads the source to the front of the buffer, as far as it goes. Says how many bytes it read.
pub(crate) fn read_front<I: Source>(source: &mut I, buffer: &mut [u8]) -> (usize, ReadTo)
    ensures within { result.0 ≤ length buffer.new }
    ensures long { length buffer.new ≡ length buffer.old }
    ensures taken { Consumes (I.state source.old).left (I.state source.new).left (take result.0 buffer.new) }
    ensures end { result.1 ≡ ReadTo.End → IsAtEnd (I.state source.new).left × (result.0 < length buffer.new) }
    ensures fault { result.1 ≡ ReadTo.Fault → Rose (I.state source.old).faults (I.state source.new).faults × (result.0 < length buffer.new) }
    ensures told { result.1 ≢ ReadTo.Fault → (I.state source.new).faults ≡ (I.state source.old).faults }
    ensures limit { result.1 ≡ ReadTo.Limit → result.0 ≡ length buffer.new }
    ensures later { (I.state source.old).faults ≤ (I.state source.new).faults }
    ensures lent { (I.state source.new).lent ≡ (I.state source.old).lent }
{
    let mut count = 0;
    'pieces: while count < buffer.len() {
        match read_behind(source, buffer, count) {
            Ok(0) => return (count, ReadTo::End),
            Ok(n) => count += n,
            Err(_) => return (count, ReadTo::Fault),
        }
    }
    (count, ReadTo::Limit)
}

/// Reads a piece behind the first `count` bytes of the buffer, and says how long the piece is.
fn read_behind<I: Source>(source: &mut I, buffer: &mut [u8], count: usize) -> Result<usize, Failed>
    requires room { count < length buffer.old }
    ensures long { length buffer.new ≡ length buffer.old }
    ensures front { take count buffer.new ≡ take count buffer.old }
    ensures bytes { IfOk result (λ n. Consumes (I.state source.old).left (I.state source.new).left (take n (drop count buffer.new))) }
    ensures within { IfOk result (λ n. count + n ≤ length buffer.new) }
    ensures end { IfOk result (λ n. n ≡ 0 → IsAtEnd (I.state source.new).left) }
    ensures kept { OnErr result (Keeps (I.state source.old).left (I.state source.new).left) }
    ensures cause { Blames (I.state source.old).faults (I.state source.new).faults result }
    ensures lent { (I.state source.new).lent ≡ (I.state source.old).lent }
{
    source.read(&mut buffer[count..])
}
