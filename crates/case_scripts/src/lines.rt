// What a line says.

/// Whether a line is empty or begins with `#`: it says nothing to the program.
pub fn is_remark(line: &str) -> bool {
    line.is_empty() || line.starts_with('#')
}

/// The command of a line, and what stands behind the blank after it.
pub fn command(line: &str) -> (&str, &str) {
    match line.split_once(' ') {
        Some((word, rest)) => (word, rest),
        None => (line, ""),
    }
}
