// Support names.
ghost use Rattle.std.specs.Prelude.{◌≡◌};
ghost use Rattle.amounts.specs.Names.{name_right, same_bytes};

// Whether a support name has neither a slash nor a colon.
pub fn name_right(name: &[u8]) -> bool
    ensures { result ≡ name_right name.now }
{
    name.iter().all(|b| *b != b'/' && *b != b':')
}

// Whether two parts hold the same bytes.
pub fn same_bytes(a: &[u8], b: &[u8]) -> bool
    ensures { result ≡ same_bytes a.now b.now }
{
    a == b
}
