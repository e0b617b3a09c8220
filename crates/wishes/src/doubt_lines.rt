//! The lines of doubts. Each is put at the end of a text.

ghost use Rattle.std.specs.Prelude.{◌≡◌, ◌++◌, OnOk};
ghost use Rattle.wishes.specs.Doubts.{counted, dense_frame_line, dense_frame_start, entry_end, entry_start, frame_start, listener_start, long_frame_end, long_frame_line, long_stream_end, long_stream_line, named, no_class_end, no_class_line, no_frames_line, number_end, octets_words, stream_start, undeclared_end, undeclared_line, undeclared_stream, unheard_line, untalked_line, vid_end};

use report_words::{put, put_number, put_octets};
use srp_base::{NoMemory, Vid};

// A name between two words.
fn put_named(out: &mut Vec<u8>, before: &str, name: &[u8], after: &str) -> Result<(), NoMemory>
    ensures { OnOk result (out.new.items ≡ out.old.items ++ named before.now name.now after.now) }
{
    put(out, before)?;
    put_octets(out, name)?;
    put(out, after)
}

// A number between two words.
fn put_counted(out: &mut Vec<u8>, before: &str, number: u64, after: &str) -> Result<(), NoMemory>
    ensures { OnOk result (out.new.items ≡ out.old.items ++ counted before.now number after.now) }
{
    put(out, before)?;
    put_number(out, number)?;
    put(out, after)
}

/// A stream without frames.
pub(crate) fn put_no_frames_line(out: &mut Vec<u8>, name: &[u8]) -> Result<(), NoMemory>
    ensures { OnOk result (out.new.items ≡ out.old.items ++ no_frames_line name.now) }
{
    put_named(
        out,
        "doubt stream ",
        name,
        " has frames 0: its Talker asks for no bandwidth\n",
    )
}

// How the line of a stream begins.
fn put_stream_start(out: &mut Vec<u8>, name: &[u8]) -> Result<(), NoMemory>
    ensures { OnOk result (out.new.items ≡ out.old.items ++ stream_start name.now) }
{
    put_named(out, "doubt stream ", name, " has ")
}

// How many octets are too many.
fn put_long_stream_end(out: &mut Vec<u8>, octets: u16) -> Result<(), NoMemory>
    ensures { OnOk result (out.new.items ≡ out.old.items ++ long_stream_end octets) }
{
    let number = u64::from(octets);
    put_counted(
        out,
        "octets ",
        number,
        ", more than 1500: each port refuses it\n",
    )
}

/// A stream of frames that are too long.
pub(crate) fn put_long_stream_line(
    out: &mut Vec<u8>,
    name: &[u8],
    octets: u16,
) -> Result<(), NoMemory>
    ensures { OnOk result (out.new.items ≡ out.old.items ++ long_stream_line name.now octets) }
{
    put_stream_start(out, name)?;
    put_long_stream_end(out, octets)
}

// Which priority is of no class.
fn put_no_class_end(out: &mut Vec<u8>, priority: u8) -> Result<(), NoMemory>
    ensures { OnOk result (out.new.items ≡ out.old.items ++ no_class_end priority) }
{
    let number = u64::from(priority);
    put_counted(
        out,
        "priority ",
        number,
        ", which is of no class: each port refuses it\n",
    )
}

/// A stream of no class.
pub(crate) fn put_no_class_line(
    out: &mut Vec<u8>,
    name: &[u8],
    priority: u8,
) -> Result<(), NoMemory>
    ensures { OnOk result (out.new.items ≡ out.old.items ++ no_class_line name.now priority) }
{
    put_stream_start(out, name)?;
    put_no_class_end(out, priority)
}

/// A stream that nobody talks.
pub(crate) fn put_untalked_line(out: &mut Vec<u8>, name: &[u8]) -> Result<(), NoMemory>
    ensures { OnOk result (out.new.items ≡ out.old.items ++ untalked_line name.now) }
{
    put_named(out, "doubt nobody talks stream ", name, " at the end\n")
}

/// A stream that nobody listens to.
pub(crate) fn put_unheard_line(out: &mut Vec<u8>, name: &[u8]) -> Result<(), NoMemory>
    ensures { OnOk result (out.new.items ≡ out.old.items ++ unheard_line name.now) }
{
    put_named(
        out,
        "doubt nobody listens to stream ",
        name,
        " at the end\n",
    )
}

// How the line of a listener begins.
fn put_listener_start(out: &mut Vec<u8>, station: &[u8]) -> Result<(), NoMemory>
    ensures { OnOk result (out.new.items ≡ out.old.items ++ listener_start station.now) }
{
    put_named(out, "doubt ", station, " listens to ")
}

// Of which stream something isn't declared.
fn put_undeclared_stream(out: &mut Vec<u8>, name: &[u8]) -> Result<(), NoMemory>
    ensures { OnOk result (out.new.items ≡ out.old.items ++ undeclared_stream name.now) }
{
    put_named(out, "stream ", name, " and doesn't declare its ")
}

// Which VID.
fn put_vid_end(out: &mut Vec<u8>, vid: Vid) -> Result<(), NoMemory>
    ensures { OnOk result (out.new.items ≡ out.old.items ++ vid_end vid) }
{
    let number = u64::from(vid.get());
    put_counted(out, "VID ", number, "\n")
}

// What isn't declared.
fn put_undeclared_end(out: &mut Vec<u8>, name: &[u8], vid: Vid) -> Result<(), NoMemory>
    ensures { OnOk result (out.new.items ≡ out.old.items ++ undeclared_end name.now vid) }
{
    put_undeclared_stream(out, name)?;
    put_vid_end(out, vid)
}

/// A station that listens to a stream and doesn't declare its VID.
pub(crate) fn put_undeclared_line(
    out: &mut Vec<u8>,
    station: &[u8],
    name: &[u8],
    vid: Vid,
) -> Result<(), NoMemory>
    ensures { OnOk result (out.new.items
        ≡ out.old.items ++ undeclared_line station.now name.now vid) }
{
    put_listener_start(out, station)?;
    put_undeclared_end(out, name, vid)
}

// Which stream a frame is of.
fn put_entry_start(out: &mut Vec<u8>, name: &[u8]) -> Result<(), NoMemory>
    ensures { OnOk result (out.new.items ≡ out.old.items ++ entry_start name.now) }
{
    put_named(out, "its stream ", name, ": ")
}

// What its entry says.
fn put_number_end(out: &mut Vec<u8>, number: u16) -> Result<(), NoMemory>
    ensures { OnOk result (out.new.items ≡ out.old.items ++ number_end number) }
{
    let number = u64::from(number);
    put_counted(out, "", number, "\n")
}

// Both.
fn put_entry_end(out: &mut Vec<u8>, name: &[u8], number: u16) -> Result<(), NoMemory>
    ensures { OnOk result (out.new.items ≡ out.old.items ++ entry_end name.now number) }
{
    put_entry_start(out, name)?;
    put_number_end(out, number)
}

// How the line of a frame begins.
fn put_frame_start(out: &mut Vec<u8>, number: usize) -> Result<(), NoMemory>
    ensures { OnOk result (out.new.items ≡ out.old.items ++ frame_start number) }
{
    put_counted(out, "doubt frame ", number as u64, " has ")
}

// How many octets it has.
fn put_octets_words(out: &mut Vec<u8>, octets: u16) -> Result<(), NoMemory>
    ensures { OnOk result (out.new.items ≡ out.old.items ++ octets_words octets) }
{
    let number = u64::from(octets);
    put_counted(out, "octets ", number, ", more than ")
}

// And how many its stream.
fn put_long_frame_end(
    out: &mut Vec<u8>,
    octets: u16,
    name: &[u8],
    most: u16,
) -> Result<(), NoMemory>
    ensures { OnOk result (out.new.items ≡ out.old.items ++ long_frame_end octets name.now most) }
{
    put_octets_words(out, octets)?;
    put_entry_end(out, name, most)
}

/// A frame that is longer than its stream's, by its number.
pub(crate) fn put_long_frame_line(
    out: &mut Vec<u8>,
    number: usize,
    octets: u16,
    name: &[u8],
    most: u16,
) -> Result<(), NoMemory>
    ensures { OnOk result (out.new.items
        ≡ out.old.items ++ long_frame_line number octets name.now most) }
{
    put_frame_start(out, number)?;
    put_long_frame_end(out, octets, name, most)
}

// How the line of a dense frame begins.
fn put_dense_frame_start(out: &mut Vec<u8>, number: usize) -> Result<(), NoMemory>
    ensures { OnOk result (out.new.items ≡ out.old.items ++ dense_frame_start number) }
{
    put_counted(
        out,
        "doubt frame ",
        number as u64,
        " comes more often in an interval than ",
    )
}

/// A frame that comes more often than its stream's, by its number.
pub(crate) fn put_dense_frame_line(
    out: &mut Vec<u8>,
    number: usize,
    name: &[u8],
    frames: u16,
) -> Result<(), NoMemory>
    ensures { OnOk result (out.new.items
        ≡ out.old.items ++ dense_frame_line number name.now frames) }
{
    put_dense_frame_start(out, number)?;
    put_entry_end(out, name, frames)
}
