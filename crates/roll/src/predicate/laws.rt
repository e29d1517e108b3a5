// The two laws of reading a predicate.
ghost use Rattle.roll.specs.Reading.{ReadsEncoded, EncodesRead};

// A predicate is read again from the bytes that encode it.
pub fn reads_encoded_stands()
    ensures { ReadsEncoded }
{}

// What is read as a predicate has exactly the bytes that encode it.
pub fn encodes_read_stands()
    ensures { EncodesRead }
{}
