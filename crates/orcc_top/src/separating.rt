//! The text and the job of an input.
ghost use Rattle.std.specs.Prelude.{◌≡◌, ◌<◌, ◌≤◌, ◌∷◌, length, take, drop, position, ◌==◌};
ghost use Rattle.orcc_top.specs.Inputs.{whole_lines, is_separator, text_in, job_in};

/// The place of the first byte 10.
fn line_end(bytes: &[u8]) -> Option<usize>
    ensures { result ≡ position (λ b. b == 10) bytes.now }
{
    bytes.iter().position(|b| *b == b'\n')
}

/// The length of the first line, with its end.
#[tactic(auto, using(crate::proofs::Separated::line_to, crate::proofs::Separated::line_without))]
fn line_length(bytes: &[u8]) -> usize
    requires { 0 < length bytes.now }
    ensures line { whole_lines bytes.now ≡ take result bytes.now ∷ whole_lines (drop result bytes.now) }
    ensures some { 0 < result }
    ensures within { result ≤ length bytes.now }
{
    match line_end(bytes) {
        Some(i) => i + 1,
        None => bytes.len(),
    }
}

/// Whether a line is the one that stands between a text and a job.
fn is_separator(line: &[u8]) -> bool
    ensures { result ≡ is_separator line.now }
{
    line == b"%%".as_slice() || line == b"%%\n".as_slice()
}

/// The text of an input, which ends before the first line that is exactly `%%`, and the job, which
/// begins behind that line. Without such a line all is the text, and the job is empty.
pub fn separate(input: &[u8]) -> (&[u8], &[u8])
    ensures text { result.0.now ≡ text_in input.now }
    ensures job { result.1.now ≡ job_in input.now }
    ensures shorter { length result.0.now ≤ length input.now }
{
    let mut at = 0;
    while at < input.len() {
        let rest = &input[at..];
        let (line, more) = rest.split_at(line_length(rest));
        if is_separator(line) {
            return (&input[..at], more);
        }
        at += line.len();
    }
    (input, &[])
}
