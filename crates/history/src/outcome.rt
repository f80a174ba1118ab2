// From what a call returns to its answer.
ghost use Rattle.std.specs.Prelude.{◌≡◌};
ghost use Rattle.history.specs.Answers.{depth_answer, count_answer, value_answer};

use crate::answer::{Answer, Reply};
use refusal::Refusal;

// Three functions, one for each kind of reply: a parameter in their place would be the variant's name again.
pub fn depth_answer<V: Copy>(returned: Result<usize, Refusal>) -> Answer<V>
    ensures { result ≡ depth_answer returned }
{
    Ok(Reply::Depth(returned?))
}

pub fn count_answer<V: Copy>(returned: Result<usize, Refusal>) -> Answer<V>
    ensures { result ≡ count_answer returned }
{
    Ok(Reply::Count(returned?))
}

pub fn value_answer<V: Copy>(returned: Result<V, Refusal>) -> Answer<V>
    ensures { result ≡ value_answer returned }
{
    Ok(Reply::Value(returned?))
}
