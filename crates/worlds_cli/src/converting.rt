//! The conversions: the bytes of a message of a JSON value, and what the bytes of a message spell.
ghost use Rattle.std.specs.Prelude.{◌≡◌, ◌≤◌, ◌++◌, ◌∷◌, [], List, ℕ, length, Ok, Err, MatchResult, IfOk, IfErr, IfSome};
ghost use Rattle.hex.specs.Hex.{encode_upper};
ghost use Rattle.parcel.specs.Text.{text_of};
ghost use Rattle.wire_input.specs.Input.{parcel_of};
ghost use Rattle.wl_causes.specs.Causes.{Rose};
ghost use Rattle.worlds_cli.specs.Answer.{answer_to, converted, wire_line, unwired};
ghost use Rattle.worlds_cli.specs.Clauses.{Stops};
ghost use Rattle.worlds_cli.specs.Command.{convert};
ghost use Rattle.worlds_cli.specs.Converting.{StopsConverting};

use crate::reading::read_required;
use crate::status::Status;
use crate::words::Conversion;
use hex::encode_upper;
use parcel::{Parcel, show};
use sqlite_items::Items;
use std::alloc::{AllocError, Global};
use v8_wire::{WireFault, put, take};
use wire_input::{InputFault, parcel_of_json};
use wl_causes::Folder;

/// The greatest number of bytes of a file that is converted.
const INPUT_LIMIT: u32 = 4_194_304;

/// The text of a file's conversion, or the first refusal: of reading the file, or of what it holds. It takes time linear
/// in the file, and for `wire` a logarithm more for the order of keys.
pub fn read_converted<F: Folder>(
    alloc: Global,
    folder: &mut F,
    conversion: Conversion,
    file: &str,
) -> Result<Vec<u8>, Status>
    ensures ok { IfOk result (λ line. IfSome (F.files folder.old) (λ files. answer_to files (convert conversion file.now) ≡ Ok line.items)) }
    ensures err { IfErr result (Stops (F.files folder.old) (convert conversion file.now) (Rose (F.faults folder.old) (F.faults folder.new))) }
{
    let bytes = match read_required(alloc, folder, file, INPUT_LIMIT) {
        Ok(bytes) => bytes,
        Err(status) => return Err(status),
    };
    match line_of(alloc, conversion, file, bytes.as_slice()) {
        Ok(line) => Ok(line),
        Err(status) => Err(status),
    }
}

// The text of a conversion.
#[tactic(auto, unfolding(crate::specs::Answer::converted))]
fn line_of(
    alloc: Global,
    conversion: Conversion,
    file: &str,
    bytes: &[u8],
) -> Result<Vec<u8>, Status>
    ensures { MatchResult result (λ line. converted conversion file.now bytes.now ≡ Ok line.items)
        (λ status. StopsConverting (converted conversion file.now bytes.now) status) }
{
    match conversion {
        Conversion::Wire => wire_line(alloc, file, bytes),
        Conversion::Unwire => unwire_line(alloc, bytes),
    }
}

// The bytes of the message of a JSON value, in hexadecimal digits.
fn wire_line(alloc: Global, file: &str, bytes: &[u8]) -> Result<Vec<u8>, Status>
    ensures { MatchResult result (λ line. wire_line file.now (parcel_of bytes.now) ≡ Ok line.items)
        (λ status. StopsConverting (wire_line file.now (parcel_of bytes.now)) status) }
{
    let parcel = match parcel_of_json(alloc, bytes) {
        Ok(parcel) => parcel,
        Err(fault) => return Err(refusal_of_input(alloc, file, fault)),
    };
    let message = match put(alloc, &parcel) {
        Ok(message) => message,
        Err(_) => return Err(Status::Memory),
    };
    match hex_line(alloc, message.as_slice()) {
        Ok(line) => Ok(line),
        Err(_) => Err(Status::Memory),
    }
}

// What the bytes of a message spell, where no ports came along.
fn unwire_line(alloc: Global, bytes: &[u8]) -> Result<Vec<u8>, Status>
    ensures { MatchResult result (λ line. unwired bytes.now ≡ Ok line.items)
        (λ status. StopsConverting (unwired bytes.now) status) }
{
    let parcel = match take(alloc, bytes, 0) {
        Ok(parcel) => parcel,
        Err(WireFault::At { place, kind }) => return Err(Status::Wire { place, kind }),
        Err(WireFault::Memory) => return Err(Status::Memory),
    };
    match shown_line(alloc, &parcel) {
        Ok(line) => Ok(line),
        Err(_) => Err(Status::Memory),
    }
}

// Why a JSON text isn't converted.
fn refusal_of_input(alloc: Global, file: &str, fault: InputFault) -> Status
    ensures { StopsConverting (wire_line file.now (Err fault)) result }
{
    let Ok(name) = Items::from_slice(alloc, file.as_bytes()) else {
        return Status::Memory;
    };
    match fault {
        InputFault::Json => Status::Json { file: name },
        InputFault::Shape => match Items::from_slice(alloc, b".") {
            Ok(key) => Status::Shape { file: name, key },
            Err(_) => Status::Memory,
        },
        InputFault::Memory => Status::Memory,
    }
}

// Bytes as a line of upper-case hexadecimal digits.
fn hex_line(alloc: Global, bytes: &[u8]) -> Result<Vec<u8>, AllocError>
    ensures { IfOk result (λ line. line.items ≡ encode_upper bytes.now ++ 10 ∷ []) }
{
    let digits = encode_upper(alloc, bytes)?;
    let mut line = Vec::new(alloc);
    line.extend_from_slice(digits.as_bytes())?;
    line.push(b'\n')?;
    Ok(line)
}

// A parcel's text as a line.
fn shown_line(alloc: Global, parcel: &Parcel) -> Result<Vec<u8>, AllocError>
    ensures { IfOk result (λ line. line.items ≡ text_of parcel.now ++ 10 ∷ []) }
{
    let mut line = show(alloc, parcel)?;
    line.push(b'\n')?;
    Ok(line)
}
