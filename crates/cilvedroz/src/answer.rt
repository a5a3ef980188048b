// What encode says, as one number for C.
ghost use Rattle.std.specs.Prelude.{◌≡◌, ◌≤◌, IfOk};
ghost use Rattle.cilvedroz.specs.Answers.{answer_of};

use encode::EncodeFault;

// Where there is no such key or no such encoding.
pub const NO_SUCH: i32 = -100;

// The count of the bytes, or minus the number of the refusal: by a function, since the number is C's and its type no one's.
pub(crate) fn answer_of(said: Result<usize, EncodeFault>) -> i32
    requires { IfOk said (λ n. n ≤ 15) }
    ensures { result ≡ answer_of said }
{
    match said {
        Ok(count) => count as i32,
        Err(fault) => -(fault.number() as i32),
    }
}
