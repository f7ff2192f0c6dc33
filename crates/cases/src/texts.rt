// Texts that hold something else than words.
use std::io;
use terms::Place;
use words::{Fault, read_words};

// A text with its words or its fault; its own texts: shorter than the fault's, without "of the recording".
fn read(rt: &HostRuntime, text: &str) -> io::Result<()> {
    match read_words(rt.alloc(), text.as_bytes()) {
        Ok(words) => println!(rt; "the text '{text}': {words:?}"),
        Err(Fault::TooLong) => println!(rt; "the text '{text}': too long"),
        Err(Fault::NoWord(Place(at))) => println!(rt;
            "the text '{text}': word {at} is no hexadecimal number"
        ),
        Err(Fault::NoMemory) => println!(rt; "the text '{text}': no memory"),
    }
}

pub(crate) fn faults(rt: &HostRuntime) -> io::Result<()> {
    read(rt, "")?;
    read(rt, " 0x0000000A  ffffFFFF ")?;
    read(rt, "10000000 30000g01")?;
    read(rt, "0x")?;
    read(rt, "1 2 123456789")
}
