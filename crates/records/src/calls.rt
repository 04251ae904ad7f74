// The public calls, by the names that a session file has for them.
use crate::table::{MOST, byte, bytes, number, value};
use std::io;

// Runs the call of a row on its record, and gives the number that the call gives. None where there is no call of its name.
pub fn run(rt: &impl Print, row: &[u8]) -> io::Result<Option<u64>> {
    let mut record = [0u8; MOST];
    let count = bytes(rt, row, b"record=", &mut record)?;
    let mut answer = [0u8; MOST];
    let room = number(rt, row, b"room=")? as usize;
    let lent = room.min(MOST);
    named(
        rt,
        value(row, b"call="),
        row,
        &mut record[..count],
        &mut answer[..lent],
    )
}

// Some calls have no use for the answer bytes.
fn named(
    rt: &impl Print,
    name: &[u8],
    row: &[u8],
    record: &mut [u8],
    answer: &mut [u8],
) -> io::Result<Option<u64>> {
    let code = match name {
        b"read" => read(rt, row, record, answer)?,
        b"write" => write(rt, row, record, answer)?,
        b"button" => firmware::tag_button(record, answer),
        b"elapsed" => firmware::tag_elapsed(record, number(rt, row, b"tenths=")?, answer),
        b"frame" => firmware::tag_frame(record, answer),
        b"pairing" => firmware::tag_pairing(record, number(rt, row, b"on=")?),
        b"battery" => firmware::tag_battery(record, number(rt, row, b"level=")?),
        b"key" => account_key(rt, row, record)?,
        b"disconnect" => firmware::tag_disconnect(record),
        b"sleep" => firmware::tag_sleep(record),
        _ => return Ok(None),
    };
    Ok(Some(code))
}

fn read(rt: &impl Print, row: &[u8], record: &mut [u8], answer: &mut [u8]) -> io::Result<u64> {
    let mut nonce = [0u8; MOST];
    let count = bytes(rt, row, b"nonce=", &mut nonce)?;
    Ok(firmware::tag_read(record, &nonce[..count], answer))
}

fn write(rt: &impl Print, row: &[u8], record: &mut [u8], answer: &mut [u8]) -> io::Result<u64> {
    let mut request = [0u8; MOST];
    let count = bytes(rt, row, b"data=", &mut request)?;
    let reach = byte(rt, row, b"reach=")?;
    Ok(firmware::tag_write(record, &request[..count], u32::from(reach), answer))
}

fn account_key(rt: &impl Print, row: &[u8], record: &mut [u8]) -> io::Result<u64> {
    let mut key = [0u8; MOST];
    let count = bytes(rt, row, b"bytes=", &mut key)?;
    Ok(firmware::tag_account_key(record, &key[..count]))
}
