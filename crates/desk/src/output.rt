// Standard output, as far as it takes what is printed: an output that nobody reads is the launcher's to tell, and ends no program. So what a
// print answers is let go, here and wherever text is printed.

// Prints bytes.
pub fn print_bytes(rt: &HostRuntime, bytes: &[u8]) {
    let _ = rt.stdout().write_all(bytes);
}
