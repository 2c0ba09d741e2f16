// Whole numbers by their digits.
ghost use Rattle.std.specs.Prelude.{◌≡◌, ◌^◌, ◌<◌, IfSome};
ghost use Rattle.syntax.specs.Walking.{natural as natural_of, whole as whole_of};

// The number that one to eighteen digits write.
fn natural(digits: &[u8]) -> Option<u64>
    ensures is { result ≡ natural_of digits.now }
    ensures small { IfSome result (λ n. n < 10 ^ 18) }
{
    if digits.is_empty() || digits.len() > 18 {
        return None;
    }
    let mut n: u64 = 0;
    for d in digits {
        if !d.is_ascii_digit() {
            return None;
        }
        n = n * 10 + (*d - b'0') as u64;
    }
    Some(n)
}

/// The whole number of one to eighteen digits, behind a minus or not.
pub fn whole(bytes: &[u8]) -> Option<i64>
    ensures { result ≡ whole_of bytes.now }
{
    match bytes {
        [b'-', digits @ ..] => {
            let n = natural(digits)?;
            Some(-(n as i64))
        }
        _ => {
            let n = natural(bytes)?;
            Some(n as i64)
        }
    }
}
