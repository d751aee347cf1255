//! What is left out of OpenCL C, in words.

use opencl_parser::stops::Construct as Read;
use opencl_tokens::Word;
use opencl_values::error::Construct as Written;

/// A token that is left out.
pub fn token(of: Word) -> &'static str {
    match of {
        Word::Long => "a number of 64 bits",
        Word::Half => "a number that is a half",
        _ => "that number",
    }
}

/// A construct that is left out where a text is read.
pub fn read(of: Read) -> &'static str {
    match of {
        Read::Structure => "a structure or a union",
        Read::Enumeration => "an enumeration with a name",
        Read::Image => "an image",
        Read::Sampler => "a sampler",
        Read::Event => "an event",
        Read::Double => "double",
        Read::Half => "half",
        Read::Long => "an unsigned integer of 64 bits, or a vector of such",
        Read::String => "a string",
        Read::Goto => "goto",
        Read::Label => "a label that is none of a switch",
    }
}

/// A construct that is left out where a kernel is written out.
pub fn written(of: Written) -> &'static str {
    match of {
        Written::Vector => "a vector that is used like this",
        Written::Pointer => "a pointer that is used like this",
        Written::Effect => {
            "an expression that stores, where C leaves open what comes first, or where nothing can be written in front of it"
        }
        Written::Function => "a call of a function that is not read, or a return like this",
        Written::Choice => "a switch that is written like this",
        Written::Repetition => "a jump that is written like this",
        Written::PrivateArray => "a private array that is used like this",
        Written::InitialList => "a list in braces like this",
        Written::Atomic => "an atomic function",
        Written::Image => "an image",
        Written::Long => "an integer of 64 bits that is used like this",
        Written::Half => "half",
        Written::Double => "double",
        Written::SizeShift => "a shift of a size by what is no number of the text",
        Written::DeviceSize => "a size that differs from device to device",
        Written::Outside => "what the file declares under that name",
        Written::LocalScalar => "a __local variable that is no array",
        Written::ConstantVariable => "a __constant variable in a block",
    }
}
