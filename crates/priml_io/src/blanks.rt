ghost use Rattle.std.specs.Prelude.{◌≡◌};
ghost use Rattle.std.specs.List.{list_all};
ghost use Rattle.priml_io.specs.Lines.{is_blank as blank};

/// Whether the bytes are nothing but blanks.
pub fn are_blank(bytes: &[u8]) -> bool
    ensures { result ≡ list_all blank bytes.now }
{
    bytes.iter().all(|b| is_blank(*b))
}

/// Whether the byte is a space, a tab or a carriage return.
pub fn is_blank(byte: u8) -> bool
    ensures { result ≡ blank byte }
{
    byte == b' ' || byte == b'\t' || byte == b'\r'
}
