use super::*;
use std::alloc::{AllocError, Global};
use std::test::Fail;

// Words joined by spaces, and what is read.
struct Row {
    words: &'static str,
    answer: Result<Command<'static>, WordsFault>,
}

const USAGE: Result<Command<'static>, WordsFault> = Err(WordsFault::Usage);

const HERE: Address = Address {
    host: 0x7f00_0001,
    port: 5_000,
};

const NO_THREADS: Result<Command<'static>, WordsFault> = Ok(Command::Loop {
    input: "a",
    script: "b",
    output: "c",
    journal: "d",
    threads: 0,
});

const ONE_THREAD: Result<Command<'static>, WordsFault> = Ok(Command::Loop {
    input: "a",
    script: "b",
    output: "c",
    journal: "d",
    threads: 1,
});

const TWO_THREADS: Result<Command<'static>, WordsFault> = Ok(Command::Loop {
    input: "a",
    script: "b",
    output: "c",
    journal: "d",
    threads: 2,
});

const THREE_THREADS: Result<Command<'static>, WordsFault> = Ok(Command::Loop {
    input: "a",
    script: "b",
    output: "c",
    journal: "d",
    threads: 3,
});

const SEVEN_THREADS: Result<Command<'static>, WordsFault> = Ok(Command::Loop {
    input: "a",
    script: "b",
    output: "c",
    journal: "d",
    threads: 7,
});

const MOST_THREADS: Result<Command<'static>, WordsFault> = Ok(Command::Loop {
    input: "a",
    script: "b",
    output: "c",
    journal: "d",
    threads: 64,
});

static ROWS: [Row; 52] = [
    Row {
        words: "",
        answer: USAGE,
    },
    Row {
        words: "jump a b c d",
        answer: USAGE,
    },
    Row {
        words: "Loop a b c d",
        answer: USAGE,
    },
    Row {
        words: "loop a b c",
        answer: USAGE,
    },
    Row {
        words: "loop a b c d e",
        answer: USAGE,
    },
    Row {
        words: "loop a b c d",
        answer: TWO_THREADS,
    },
    Row {
        words: "loop a b c d --threads=3",
        answer: THREE_THREADS,
    },
    Row {
        words: "loop a b c d --threads 3",
        answer: THREE_THREADS,
    },
    Row {
        words: "loop --threads 0 a b c d",
        answer: NO_THREADS,
    },
    Row {
        words: "loop a b --threads=64 c d",
        answer: MOST_THREADS,
    },
    Row {
        words: "loop a b c d --threads 007",
        answer: SEVEN_THREADS,
    },
    Row {
        words: "loop a b c d --threads 00000000000000000007",
        answer: SEVEN_THREADS,
    },
    Row {
        words: "loop a b c d --threads 000000000000000000007",
        answer: USAGE,
    },
    Row {
        words: "loop a b c d --threads 65",
        answer: USAGE,
    },
    Row {
        words: "loop a b c d --threads=65",
        answer: USAGE,
    },
    Row {
        words: "loop a b c d --threads",
        answer: USAGE,
    },
    Row {
        words: "loop a b c d --threads=",
        answer: USAGE,
    },
    Row {
        words: "loop a b c d --threads -1",
        answer: USAGE,
    },
    Row {
        words: "loop a b c d --threads=+1",
        answer: USAGE,
    },
    Row {
        words: "loop a b c d --threads -",
        answer: USAGE,
    },
    Row {
        words: "loop a b c d --threads 1 --threads 1",
        answer: USAGE,
    },
    Row {
        words: "loop --threads --threads=1 a b c d",
        answer: USAGE,
    },
    Row {
        words: "loop a b c d --thread 1",
        answer: USAGE,
    },
    Row {
        words: "loop a b c d --help",
        answer: USAGE,
    },
    Row {
        words: "loop a b c d -h",
        answer: USAGE,
    },
    Row {
        words: "loop a b c d --version",
        answer: USAGE,
    },
    Row {
        words: "loop a b c -d",
        answer: USAGE,
    },
    Row {
        words: "loop a b c d --",
        answer: TWO_THREADS,
    },
    Row {
        words: "loop a b --threads 1 -- c d",
        answer: ONE_THREAD,
    },
    Row {
        words: "loop a b c d -- --threads=3",
        answer: USAGE,
    },
    Row {
        words: "loop -- --threads 1 -- -",
        answer: Ok(Command::Loop {
            input: "--threads",
            script: "1",
            output: "--",
            journal: "-",
            threads: 2,
        }),
    },
    Row {
        words: "loop - - - -",
        answer: Ok(Command::Loop {
            input: "-",
            script: "-",
            output: "-",
            journal: "-",
            threads: 2,
        }),
    },
    Row {
        words: "send a 127.0.0.1:5000 j",
        answer: Ok(Command::Send {
            input: "a",
            address: "127.0.0.1:5000",
            to: HERE,
            journal: "j",
        }),
    },
    Row {
        words: "send a 127.0.0.1 j",
        answer: USAGE,
    },
    Row {
        words: "send a 127.0.0.1:5000",
        answer: USAGE,
    },
    Row {
        words: "send a 127.0.0.1:5000 j --threads 1",
        answer: USAGE,
    },
    Row {
        words: "receive 255.255.255.255:65535 c",
        answer: Ok(Command::Receive {
            address: "255.255.255.255:65535",
            at: Address {
                host: 0xffff_ffff,
                port: 65_535,
            },
            output: "c",
        }),
    },
    Row {
        words: "receive 256.0.0.1:1 c",
        answer: USAGE,
    },
    Row {
        words: "receive 1.2.3:1 c",
        answer: USAGE,
    },
    Row {
        words: "receive 1.2.3.4.5:1 c",
        answer: USAGE,
    },
    Row {
        words: "receive 1.2.3.4:0 c",
        answer: USAGE,
    },
    Row {
        words: "receive 1.2.3.4:65536 c",
        answer: USAGE,
    },
    Row {
        words: "receive 1.2.3.4:1:1 c",
        answer: USAGE,
    },
    Row {
        words: "check j a c",
        answer: Ok(Command::Check {
            journal: "j",
            input: "a",
            output: "c",
        }),
    },
    Row {
        words: "check a b",
        answer: USAGE,
    },
    Row {
        words: "generate 18446744073709551615 10000 1280 720",
        answer: Ok(Command::Generate {
            start: u64::MAX,
            count: 10_000,
            width: 1_280,
            height: 720,
        }),
    },
    Row {
        words: "generate 18446744073709551616 1 16 16",
        answer: USAGE,
    },
    Row {
        words: "generate 1 0 16 16",
        answer: USAGE,
    },
    Row {
        words: "generate 1 10001 16 16",
        answer: USAGE,
    },
    Row {
        words: "generate 1 1 1281 16",
        answer: USAGE,
    },
    Row {
        words: "generate 1 1 16 721",
        answer: USAGE,
    },
    Row {
        words: "generate +1 1 16 16",
        answer: USAGE,
    },
];

fn split(alloc: Global, text: &str) -> Result<Vec<String>, AllocError> {
    let mut words = Vec::new(alloc);
    for word in text.split_whitespace() {
        words.push(String::from_str(alloc, word)?)?;
    }
    Ok(words)
}

#[test]
fn words_and_what_is_read(rt: HostRuntime) -> Result<(), Fail> {
    let alloc = rt.alloc();
    for row in ROWS.as_slice() {
        let words = split(alloc, row.words)?;
        let answer = read_words(alloc, words.as_slice());
        assert!(rt; answer == row.answer, "{}", row.words);
    }
    Ok(())
}

#[test]
fn words_that_are_opened(rt: HostRuntime) -> Result<(), Fail> {
    let alloc = rt.alloc();
    let words = split(alloc, "send a 127.0.0.1:5000 j")?;
    let Ok(command) = read_words(alloc, words.as_slice()) else {
        return Err("words of `send`".into());
    };
    assert!(rt; command.opened(0) == Some("a"));
    assert!(rt; command.opened(1) == Some("127.0.0.1:5000"));
    assert!(rt; command.opened(2) == Some("j"));
    assert!(rt; command.opened(3).is_none());
    Ok(())
}
