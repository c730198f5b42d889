//! What texts are read as, where they are to be images.

use image_text::ImageFault;
use stab_image::{Image, put_image, read_image};
use std::alloc::{AllocError, Global};

/// How long a text may be.
const MOST: usize = 67_108_864;

/// What a text was found to be, and where it fails.
#[derive(Clone, Copy)]
pub struct Found {
    pub name: &'static str,
    pub place: Option<u64>,
}

/// What the text is.
pub fn told(alloc: Global, text: &[u8]) -> Result<Found, AllocError> {
    if text.len() > MOST {
        return Ok(no_place("long"));
    }
    match read_image(alloc, text) {
        Ok(image) => written(alloc, &image, text),
        Err(fault) => Ok(of_fault(fault)),
    }
}

/// The length of a part of the text from its start that is an image and is shorter.
pub fn front(alloc: Global, text: &[u8]) -> Found {
    for end in 0..text.len() {
        if end <= MOST && read_image(alloc, &text[..end]).is_ok() {
            return at("fronts", end as u64);
        }
    }
    no_place("fronts")
}

// Whether the image is written as the text was.
fn written(alloc: Global, image: &Image, text: &[u8]) -> Result<Found, AllocError> {
    let mut out = Vec::new(alloc);
    if put_image(alloc, image, &mut out).is_err() {
        return Err(AllocError);
    }
    if out.as_slice() == text {
        return Ok(no_place("image"));
    }
    Ok(no_place("another image"))
}

fn of_fault(fault: ImageFault) -> Found {
    match fault {
        ImageFault::BadLine(place) => at("BadLine", place),
        ImageFault::BadNumber(place) => at("BadNumber", place),
        ImageFault::BadProgram => no_place("BadProgram"),
        ImageFault::BadState(place) => at("BadState", place),
        ImageFault::NoEnd => no_place("NoEnd"),
        ImageFault::NoMemory => no_place("NoMemory"),
    }
}

fn at(name: &'static str, place: u64) -> Found {
    Found {
        name,
        place: Some(place),
    }
}

fn no_place(name: &'static str) -> Found {
    Found { name, place: None }
}
