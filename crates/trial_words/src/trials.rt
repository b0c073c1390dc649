// Which words are taken, and what they order.
use ground_program::Mode;
use run_words::{Settings, Task, WordsError, read_words};
use std::alloc::{AllocError, Global};
use std::test::Fail;
use worker_jobs::Strategy;

// Words and what they order, for one worker without watchers.
struct Order {
    words: &'static [&'static str],
    mode: Mode,
    strategy: Strategy,
    budget: u32,
    slice: u32,
}

static ORDERS: [Order; 12] = [
    Order {
        words: &["cautious"],
        mode: Mode::Cautious,
        strategy: Strategy::Single,
        budget: 100_000,
        slice: 256,
    },
    Order {
        words: &["brave"],
        mode: Mode::Brave,
        strategy: Strategy::Single,
        budget: 100_000,
        slice: 256,
    },
    Order {
        words: &["brave", "--strategy=chunks"],
        mode: Mode::Brave,
        strategy: Strategy::Chunks(16),
        budget: 100_000,
        slice: 256,
    },
    Order {
        words: &["cautious", "--strategy=single"],
        mode: Mode::Cautious,
        strategy: Strategy::Single,
        budget: 100_000,
        slice: 256,
    },
    Order {
        words: &["cautious", "--strategy=reduction"],
        mode: Mode::Cautious,
        strategy: Strategy::Reduction,
        budget: 100_000,
        slice: 256,
    },
    Order {
        words: &["cautious", "--strategy=mix"],
        mode: Mode::Cautious,
        strategy: Strategy::Mix,
        budget: 100_000,
        slice: 256,
    },
    Order {
        words: &["cautious", "--budget=1"],
        mode: Mode::Cautious,
        strategy: Strategy::Single,
        budget: 1,
        slice: 256,
    },
    Order {
        words: &["cautious", "--budget=1000000000"],
        mode: Mode::Cautious,
        strategy: Strategy::Single,
        budget: 1_000_000_000,
        slice: 256,
    },
    Order {
        words: &["cautious", "--slice=1"],
        mode: Mode::Cautious,
        strategy: Strategy::Single,
        budget: 100_000,
        slice: 1,
    },
    Order {
        words: &["cautious", "--slice=1000000"],
        mode: Mode::Cautious,
        strategy: Strategy::Single,
        budget: 100_000,
        slice: 1_000_000,
    },
    Order {
        words: &["brave", "--budget=70", "--slice=9", "--strategy=mix"],
        mode: Mode::Brave,
        strategy: Strategy::Mix,
        budget: 70,
        slice: 9,
    },
    Order {
        words: &["brave", "--strategy=mix", "--slice=9", "--budget=70"],
        mode: Mode::Brave,
        strategy: Strategy::Mix,
        budget: 70,
        slice: 9,
    },
];

// Words that order nothing.
static REFUSED: [&[&str]; 50] = [
    &[],
    &[""],
    &["", "cautious"],
    &["cautious", ""],
    &["Cautious"],
    &["cautious "],
    &[" cautious"],
    &["cautiou"],
    &["careful"],
    &["cautious", "cautious"],
    &["cautious", "brave"],
    &["make", "1"],
    &["make", "1", "100"],
    &["self", "7", "100"],
    &["cautious", "7"],
    &["--budget=5"],
    &["--budget=5", "cautious"],
    &["--help"],
    &["cautious", "--help"],
    &["cautious", "--"],
    &["cautious", "--workers=65"],
    &["cautious", "--workers=2"],
    &["cautious", "--watch=0"],
    &["cautious", "--unknown=1"],
    &["cautious", "--budget=5", "--budget=5"],
    &["cautious", "--slice=5", "--budget=5", "--slice=6"],
    &["brave", "--strategy=mix", "--strategy=mix"],
    &["cautious", "--budget"],
    &["cautious", "--budget="],
    &["cautious", "--budget", "5"],
    &["cautious", "--budget 5"],
    &["cautious", "-budget=5"],
    &["cautious", "budget=5"],
    &["cautious", "--Budget=5"],
    &["cautious", "--budget =5"],
    &["cautious", "--budget==5"],
    &["cautious", "--budget=0"],
    &["cautious", "--budget=01"],
    &["cautious", "--budget=+5"],
    &["cautious", "--budget=-5"],
    &["cautious", "--budget= 5"],
    &["cautious", "--budget=5x"],
    &["cautious", "--budget=1000000001"],
    &["cautious", "--budget=4294967301"],
    &["cautious", "--budget=99999999999999999999999999"],
    &["cautious", "--slice=0"],
    &["cautious", "--slice=1000001"],
    &["cautious", "--strategy=Single"],
    &["cautious", "--strategy="],
    &["cautious", "--strategy=chunks16"],
];

// Words beyond the letters of ASCII.
static FOREIGN: [&[&str]; 3] = [
    &["çautious"],
    &["cautious", "--budget=٥"],
    &["cautious", "--stratégie=mix"],
];

fn words_of(alloc: Global, texts: &[&str]) -> Result<Vec<String>, AllocError> {
    let mut words = Vec::new(alloc);
    for text in texts {
        words.push(String::from_str(alloc, text)?)?;
    }
    Ok(words)
}

fn is_taken(alloc: Global, order: &Order) -> Result<bool, AllocError> {
    let words = words_of(alloc, order.words)?;
    let settings = Settings {
        mode: order.mode,
        workers: 1,
        watch: 0,
        strategy: order.strategy,
        budget: order.budget,
        slice: order.slice,
    };
    Ok(read_words(&words) == Ok(Task::Query(settings)))
}

fn is_refused(alloc: Global, texts: &[&str]) -> Result<bool, AllocError> {
    let words = words_of(alloc, texts)?;
    Ok(read_words(&words) == Err(WordsError::NotTaken))
}

#[test]
fn words_of_the_form_order_their_task(rt: HostRuntime) -> Result<(), Fail> {
    for (place, order) in ORDERS.iter().enumerate() {
        assert!(rt; is_taken(rt.alloc(), order)?, "{place}");
    }
    Ok(())
}

#[test]
fn other_words_order_nothing(rt: HostRuntime) -> Result<(), Fail> {
    for (place, texts) in REFUSED.iter().enumerate() {
        assert!(rt; is_refused(rt.alloc(), texts)?, "{place}");
    }
    for (place, texts) in FOREIGN.iter().enumerate() {
        assert!(rt; is_refused(rt.alloc(), texts)?, "{place}");
    }
    Ok(())
}
