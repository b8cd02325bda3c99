// State records and answers as the exported interface has them, in words. Functions, and no `From` in `rules`: how the
// interface lays them out is said here. Each word is written out, so that the order can be read.
ghost use Rattle.std.specs.Prelude.{◌≡◌};
ghost use Rattle.rules.specs.Answers.{read_numbers, counted_numbers, answer_numbers, state_numbers, state_from};

use rules::{Answer, Counted, State};

pub fn state_from(words: &[u32; 26]) -> State
    ensures { result ≡ state_from words.now }
{
    State {
        state: words[0],
        variables: [
            words[1], words[2], words[3], words[4], words[5], words[6], words[7], words[8],
            words[9], words[10], words[11], words[12], words[13], words[14], words[15], words[16],
        ],
        balances: [
            words[17], words[18], words[19], words[20], words[21], words[22], words[23], words[24],
        ],
        own: words[25],
    }
}

pub fn state_words(s: &State) -> [u32; 26]
    ensures { result ≡ state_numbers s.now }
{
    let v = s.variables;
    let b = s.balances;
    [
        s.state, v[0], v[1], v[2], v[3], v[4], v[5], v[6], v[7], v[8], v[9], v[10], v[11], v[12],
        v[13], v[14], v[15], b[0], b[1], b[2], b[3], b[4], b[5], b[6], b[7], s.own,
    ]
}

#[tactic(auto, unfolding(rules::specs::Answers::read_numbers))]
pub fn read_words(counted: Counted) -> [u32; 2]
    ensures { result ≡ read_numbers counted }
{
    match counted {
        Ok(_) => [0, 0],
        Err(r) => [u32::from(r.number), r.place],
    }
}

#[tactic(auto, unfolding(rules::specs::Answers::counted_numbers))]
pub fn counted_words(counted: Counted) -> [u32; 3]
    ensures { result ≡ counted_numbers counted }
{
    match counted {
        Ok(n) => [0, 0, n],
        Err(r) => [u32::from(r.number), r.place, 0],
    }
}

#[tactic(auto, unfolding(rules::specs::Answers::answer_numbers, rules::specs::Answers::value_numbers))]
pub fn answer_words(answer: &Answer) -> [u32; 5]
    ensures { result ≡ answer_numbers answer.now }
{
    match *answer {
        Answer::Completed(None, units) => [0, 0, 0, 0, units],
        Answer::Completed(Some(x), units) => [0, 0, 1, x, units],
        Answer::Refused(r, units) => [u32::from(r.number), r.place, 0, 0, units],
    }
}
