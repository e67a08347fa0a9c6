// The recorded stream on standard input: operations, bytes and soft values. All numbers are big-endian. What lies past the stream's end is not
// read, so that a buffer keeps its zeros there. Relies on the crate io.

// Standard input's descriptor.
const STDIN_FILENO: i32 = 0;

// What an operation of the stream is for: a new book, one byte of it changed, or a case of a call.
#[derive(Clone, Copy, PartialEq, Eq)]
pub enum Operation {
    Book,
    Patch,
    Encode,
    Test,
    ReadData,
    MakeRecord,
    ReadRecord,
    Decode,
    DecodeHook,
    // A case that is not replayed here, as of a load.
    Other,
}

// The next bytes, as many as the buffer has.
pub fn next(buffer: &mut [u8]) {
    io::read_full(STDIN_FILENO, buffer);
}

// The next operation, if the stream does not end.
pub fn next_operation() -> Option<Operation> {
    let mut code = [0u8; 1];
    next(&mut code);
    match code[0] {
        0 => None,
        1 => Some(Operation::Book),
        2 => Some(Operation::Patch),
        4 => Some(Operation::Encode),
        5 => Some(Operation::Test),
        6 => Some(Operation::ReadData),
        7 => Some(Operation::MakeRecord),
        8 => Some(Operation::ReadRecord),
        9 => Some(Operation::Decode),
        10 => Some(Operation::DecodeHook),
        _ => Some(Operation::Other),
    }
}

// The next soft values, as many as the slice has.
pub fn next_values(values: &mut [i16]) {
    for value in values.iter_mut() {
        let mut bytes = [0u8; 2];
        next(&mut bytes);
        *value = i16::from_be_bytes(bytes);
    }
}
