//! Writing a header, and the words between transmissions.
ghost use Rattle.std.specs.Prelude.{◌≡◌, ℕ, length, take, flat_map, OnOk, OnErr, IfOk};
ghost use Rattle.edge_io.specs.Edge.{Adds, HasCause};
ghost use Rattle.coded_stream.specs.Header.{header_text, first_text, transmission_text};
ghost use Rattle.coded_stream.specs.Header.{limit_code, word_text};
ghost use Rattle.coded_stream.specs.Shown.{header_of};
ghost use Rattle.rate_match.specs.Sendings.{common};

use crate::header::Header;
use crate::version::Version;
use edge_io::{Sink, SinkFault, write_all};
use rate_match::{Buffer, Match, Sends};
use std::alloc::{AllocError, Global};

/// Returns the number for the soft buffer of all transmissions.
fn limit_code(sends: &Sends) -> u32
    ensures { result ≡ limit_code (common sends.now).limit }
{
    match sends.buffer() {
        Buffer::Full => 0,
        Buffer::Limited(limit) => limit,
    }
}

/// Returns the header of version One without the redundancy versions.
fn first_of_one(header: &Header) -> [u8; 18]
    ensures { result ≡ first_text Version.One (header_of header.now) }
{
    let m = header.sends.at(0).0;
    let tb = (header.tb as u16).to_be_bytes();
    let g = (m.g() as u32).to_be_bytes();
    let nir = limit_code(&header.sends).to_be_bytes();
    [
        b'L',
        b'T',
        b'C',
        b'1',
        header.kind.code(),
        m.qm(),
        m.nl(),
        header.sends.len() as u8,
        tb[0],
        tb[1],
        g[0],
        g[1],
        g[2],
        g[3],
        nir[0],
        nir[1],
        nir[2],
        nir[3],
    ]
}

/// Returns the header of version Two without the transmissions.
fn first_of_two(header: &Header) -> [u8; 12]
    ensures { result ≡ first_text Version.Two (header_of header.now) }
{
    let tb = (header.tb as u16).to_be_bytes();
    let nir = limit_code(&header.sends).to_be_bytes();
    [
        b'L',
        b'T',
        b'C',
        b'2',
        header.kind.code(),
        header.sends.len() as u8,
        tb[0],
        tb[1],
        nir[0],
        nir[1],
        nir[2],
        nir[3],
    ]
}

/// Appends the first unit of a header.
fn write_first<D: Sink>(sink: &mut D, header: &Header) -> Result<(), SinkFault>
    ensures ok { OnOk result
        (Adds (D.held sink.old) (D.held sink.new) (first_text header.now.version (header_of header.now))) }
    ensures err { OnErr result ((n : ℕ) × Adds (D.held sink.old) (D.held sink.new)
        (take n (first_text header.now.version (header_of header.now)))) }
    ensures cause { HasCause (D.faults sink.old) (D.faults sink.new) result }
{
    match header.version {
        Version::One => write_all(sink, &first_of_one(header)),
        Version::Two => write_all(sink, &first_of_two(header)),
    }
}

/// Returns the bytes of a transmission of version Two.
#[tactic(auto, unfolding(crate::specs::Header::word_text))]
fn transmission_of_two(m: &Match, rv: u8) -> [u8; 7]
    ensures { result ≡ transmission_text Version.Two (record { m = m.now; rv = rv }) }
{
    let g = (m.g() as u32).to_be_bytes();
    [m.qm(), m.nl(), rv, g[0], g[1], g[2], g[3]]
}

/// Appends the part of a header that describes one transmission.
fn write_transmission<D: Sink>(
    sink: &mut D,
    version: Version,
    m: &Match,
    rv: u8,
) -> Result<(), SinkFault>
    ensures ok { OnOk result (Adds (D.held sink.old) (D.held sink.new)
        (transmission_text version (record { m = m.now; rv = rv }))) }
    ensures err { OnErr result ((n : ℕ) × Adds (D.held sink.old) (D.held sink.new)
        (take n (transmission_text version (record { m = m.now; rv = rv })))) }
    ensures cause { HasCause (D.faults sink.old) (D.faults sink.new) result }
{
    match version {
        Version::One => write_all(sink, &[rv]),
        Version::Two => write_all(sink, &transmission_of_two(m, rv)),
    }
}

/// Appends the second unit of a header.
fn write_transmissions<D: Sink>(sink: &mut D, header: &Header) -> Result<(), SinkFault>
    ensures ok { OnOk result (Adds (D.held sink.old) (D.held sink.new)
        (flat_map (transmission_text header.now.version) header.now.sends)) }
    ensures err { OnErr result ((n : ℕ) × Adds (D.held sink.old) (D.held sink.new)
        (take n (flat_map (transmission_text header.now.version) header.now.sends))) }
    ensures cause { HasCause (D.faults sink.old) (D.faults sink.new) result }
{
    for index in 0..header.sends.len() {
        let (m, rv) = header.sends.at(index);
        if let Err(SinkFault) = write_transmission(sink, header.version, &m, rv) {
            return Err(SinkFault);
        }
    }
    Ok(())
}

/// Appends a header. After `SinkFault` a prefix of its bytes was appended.
pub fn write_header<D: Sink>(sink: &mut D, header: &Header) -> Result<(), SinkFault>
    ensures ok { OnOk result
        (Adds (D.held sink.old) (D.held sink.new) (header_text (header_of header.now))) }
    ensures err { OnErr result ((n : ℕ) ×
        Adds (D.held sink.old) (D.held sink.new) (take n (header_text (header_of header.now)))) }
    ensures cause { HasCause (D.faults sink.old) (D.faults sink.new) result }
{
    if let Err(SinkFault) = write_first(sink, header) {
        return Err(SinkFault);
    }
    write_transmissions(sink, header)
}

/// Appends a block's length word, or for 0 the end word. After `SinkFault` a prefix of its bytes
/// was appended.
#[tactic(auto, unfolding(crate::specs::Header::word_text))]
pub fn write_length<D: Sink>(sink: &mut D, length: u32) -> Result<(), SinkFault>
    ensures ok { OnOk result (Adds (D.held sink.old) (D.held sink.new) (word_text length)) }
    ensures err { OnErr result ((n : ℕ) ×
        Adds (D.held sink.old) (D.held sink.new) (take n (word_text length))) }
    ensures cause { HasCause (D.faults sink.old) (D.faults sink.new) result }
{
    write_all(sink, &length.to_be_bytes())
}

/// Returns the length word of a block, or for 0 the end word.
#[tactic(auto, unfolding(crate::specs::Header::word_text))]
pub fn length_word(alloc: Global, length: u32) -> Result<Vec<u8>, AllocError>
    ensures { IfOk result (λ text. text.items ≡ word_text length) }
{
    Vec::from_slice(alloc, &length.to_be_bytes())
}
