// The search for the best phase, from source document 001 (manchester.rs).
#![tactic(auto)]

ghost use Rattle.std.specs.Prelude.{◌≡◌, ◌≤◌, ◌<◌};
ghost use Rattle.search.specs.Search.{scan_phase, higher_of, better_of, kept_better, accepted_of, new_of, first_of, ended_of, scanned_of, step_of, first_done, run_of};
ghost use Rattle.search.specs.Answers.{SaysAnswer, SaysStep};
ghost use Rattle.search.specs.Constants.{public_constants};

use lengths::BitLengths;
use window::{PhaseDecode, SampleWindow};

pub const MANCHESTER_RX_MAX_DECODED_BITS: u8 = 32;

pub const MANCHESTER_RX_MIN_DECODED_BITS: u8 = 3;

pub const PHASE_SCAN_COUNT: u8 = 4;

// Nobody calls this: its promise says what each public constant is.
fn constants() -> PublicConstants
    ensures { result ≡ public_constants }
{
    PublicConstants {
        manchester_rx_max_decoded_bits: MANCHESTER_RX_MAX_DECODED_BITS,
        manchester_rx_min_decoded_bits: MANCHESTER_RX_MIN_DECODED_BITS,
        phase_scan_count: PHASE_SCAN_COUNT,
    }
}

#[derive(Drop)]
struct PublicConstants {
    manchester_rx_max_decoded_bits: u8,
    manchester_rx_min_decoded_bits: u8,
    phase_scan_count: u8,
}

// What a finished search hands out: the decode that it found, if any, and the number of steps taken.
#[derive(Clone, Copy)]
pub struct SearchAnswer {
    pub found: Option<PhaseDecode>,
    pub steps: u8,
}

// The Rust's own enum, with its names. Searching says that there is no answer yet, and not that nothing was found.
#[derive(Clone, Copy)]
pub enum PhaseSearch {
    Searching,
    Done(SearchAnswer),
}

#[derive(Clone, Copy)]
pub struct BestPhaseSearch {
    preferred: BitLengths,
    step: u8,
    best: Option<PhaseDecode>,
}

// A step gives the search back beside its answer.
#[derive(Clone, Copy)]
pub struct Stepped {
    pub search: BestPhaseSearch,
    pub answer: PhaseSearch,
}

// The phase that the scan reads at each of its steps.
#[tactic(auto, using(crate::proofs::Steps::scanned_last), unfolding(crate::specs::Search::scan_phase))]
fn scan_phase(index: u8) -> i8
    ensures { result ≡ scan_phase index }
{
    match index {
        0 => -2,
        1 => -1,
        2 => 1,
        _ => 2,
    }
}

#[tactic(auto, unfolding(crate::specs::Search::better_of, crate::specs::Search::higher_of, laws::specs::Pick::pick))]
pub fn is_better_decode(candidate: PhaseDecode, current: PhaseDecode, preferred: BitLengths) -> bool
    ensures { result ≡ better_of candidate current preferred }
{
    let candidate_preferred = preferred.contains(candidate.bit_len);
    if candidate_preferred != preferred.contains(current.bit_len) {
        return candidate_preferred;
    }
    if candidate.score != current.score {
        return current.score < candidate.score;
    }
    candidate.phase_ticks.unsigned_abs() < current.phase_ticks.unsigned_abs()
}

impl BestPhaseSearch {
    pub fn new(preferred: BitLengths) -> BestPhaseSearch
        ensures { result ≡ new_of preferred }
    {
        BestPhaseSearch {
            preferred,
            step: 0,
            best: None,
        }
    }

    #[tactic(auto, using(crate::proofs::Telling::tells, crate::proofs::Steps::scan_back), unfolding(crate::specs::Search::step_of, laws::specs::Pick::pick))]
    pub fn step(self, window: SampleWindow) -> Stepped
        ensures value { result ≡ step_of self window }
        ensures says_step { SaysStep result.answer self window }
    {
        if self.step == 0 {
            return self.after_first(window.decode_phase(MANCHESTER_RX_MAX_DECODED_BITS, 0));
        }
        if PHASE_SCAN_COUNT < self.step {
            return self.ended();
        }
        let phase = scan_phase(self.step - 1);
        self.after_scan(window.decode_phase(MANCHESTER_RX_MAX_DECODED_BITS, phase))
    }

    // The first step says Done if the length at phase 0 is preferred. The search never keeps that decode.
    #[tactic(auto, unfolding(crate::specs::Search::first_of, laws::specs::Pick::pick))]
    fn after_first(self, first: PhaseDecode) -> Stepped
        ensures { result ≡ first_of self first }
    {
        let answer = if self.preferred.contains(first.bit_len) {
            PhaseSearch::Done(SearchAnswer {
                found: accepted(Some(first)),
                steps: 1,
            })
        } else {
            PhaseSearch::Searching
        };
        Stepped {
            search: BestPhaseSearch { step: 1, ..self },
            answer,
        }
    }

    #[tactic(auto, unfolding(crate::specs::Search::scanned_of, laws::specs::Pick::pick))]
    fn after_scan(self, candidate: PhaseDecode) -> Stepped
        requires { self.step ≤ 4 }
        ensures { result ≡ scanned_of self candidate }
    {
        let search = BestPhaseSearch {
            step: self.step + 1,
            best: keep_better(self.best, candidate, self.preferred),
            ..self
        };
        if PHASE_SCAN_COUNT < search.step {
            return search.ended();
        }
        Stepped {
            search,
            answer: PhaseSearch::Searching,
        }
    }

    // After the scan every step gives the same answer and leaves the search as it is.
    #[tactic(auto, unfolding(crate::specs::Search::ended_of))]
    fn ended(self) -> Stepped
        ensures { result ≡ ended_of self }
    {
        Stepped {
            search: self,
            answer: PhaseSearch::Done(SearchAnswer {
                found: accepted(self.best),
                steps: 5,
            }),
        }
    }

    pub fn run(self, window: SampleWindow) -> SearchAnswer
        ensures value { result ≡ run_of self window }
        ensures window_value { (first_done 5 self window ≡ PhaseSearch.Done result) × SaysAnswer result self window }
    {
        let mut search = self;
        loop {
            let stepped = search.step(window);
            if let PhaseSearch::Done(answer) = stepped.answer {
                break answer;
            }
            search = stepped.search;
        }
    }
}

// The better of the best so far and a candidate. The search never keeps a candidate of length 0.
#[tactic(auto, unfolding(crate::specs::Search::kept_better, laws::specs::Pick::pick))]
fn keep_better(
    best: Option<PhaseDecode>,
    candidate: PhaseDecode,
    preferred: BitLengths,
) -> Option<PhaseDecode>
    ensures { result ≡ kept_better best candidate preferred }
{
    if candidate.bit_len == 0 {
        return best;
    }
    match best {
        Some(current) if !is_better_decode(candidate, current, preferred) => best,
        _ => Some(candidate),
    }
}

// A decode of fewer than three bits is none.
#[tactic(auto, unfolding(crate::specs::Search::accepted_of, laws::specs::Pick::pick))]
fn accepted(found: Option<PhaseDecode>) -> Option<PhaseDecode>
    ensures { result ≡ accepted_of found }
{
    found.filter(|decode| MANCHESTER_RX_MIN_DECODED_BITS <= decode.bit_len)
}
