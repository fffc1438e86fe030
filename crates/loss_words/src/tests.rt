use super::{EarlyWords, PipeWords, Words};

/// (seed, pipe, place, word), worked out by a program of its own in Python: the block function of
/// RFC 8439 with 8 rounds, a 64-bit counter and a 64-bit stream, which gives the published first
/// block of ChaCha8 under a zero key (3e 00 ef 2f 89 5f 40 d6 ..).
const VECTORS: [(u64, u32, u32, u32); 6] = [
    (0, 0, 0, 0x2fef_003e),
    (0, 1, 0, 0xb34b_8f2b),
    (0, 0, 1, 0xd640_5f89),
    (7, 3, 20, 0x2592_381b),
    (0x8000_0000_0000_0005, 4, 17, 0xd5ff_3c46),
    (0xffff_ffff_ffff_ffff, 262_143, 1_048_575, 0x9adb_0954),
];

#[test]
fn words_are_those_of_another_implementation(rt: HostRuntime) {
    for (seed, pipe, place, word) in VECTORS {
        let mut words = Words::new(seed);
        assert_eq!(rt;
            words.word(pipe, place),
            word,
            "seed {seed} pipe {pipe} place {place}"
        );
    }
}

/// The same of early words, whose stream is 2^32 above the pipe's number.
const EARLY_VECTORS: [(u64, u32, u32, u32); 3] = [
    (0, 0, 0, 0x67bd_2fb6),
    (7, 3, 20, 0x0173_0bb7),
    (0xffff_ffff_ffff_ffff, 262_143, 1_048_575, 0x457b_b5bf),
];

#[test]
fn early_words_are_those_of_another_implementation(rt: HostRuntime) {
    for (seed, pipe, place, word) in EARLY_VECTORS {
        let mut words = Words::new(seed);
        assert_eq!(rt;
            words.early_word(pipe, place),
            word,
            "seed {seed} pipe {pipe} place {place}"
        );
        let _ = words.word(pipe, place);
        assert_eq!(rt; words.early_word(pipe, place), word, "once more");
    }
}

#[test]
fn the_words_of_one_pipe_are_those_of_another_implementation(rt: HostRuntime) {
    for (seed, pipe, place, word) in VECTORS {
        let mut words = PipeWords::new(seed, pipe);
        assert_eq!(rt;
            words.word(place),
            word,
            "seed {seed} pipe {pipe} place {place}"
        );
        assert_eq!(rt; words.word(place), word, "once more");
    }
}

#[test]
fn places_far_near_and_back_have_their_words(rt: HostRuntime) {
    let mut one = PipeWords::new(7, 3);
    let mut all = Words::new(7);
    for place in [0, 1, 2, 15, 16, 40, 63, 64, 65, 128, 127, 20, 1_048_575, 0] {
        assert_eq!(rt; one.word(place), all.word(3, place), "place {place}");
    }
}

#[test]
fn early_words_of_one_pipe_are_those_of_all_pipes(rt: HostRuntime) {
    for (seed, pipe, place, word) in EARLY_VECTORS {
        let mut words = EarlyWords::new(seed, pipe);
        assert_eq!(rt; words.word(place), word, "seed {seed} pipe {pipe}");
    }
    let mut one = EarlyWords::new(7, 3);
    let mut all = Words::new(7);
    for place in [0, 1, 15, 16, 63, 64, 65, 127, 20, 1_048_575, 0] {
        assert_eq!(rt; one.word(place), all.early_word(3, place), "place {place}");
    }
}

#[test]
fn a_word_does_not_depend_on_what_was_asked_before(rt: HostRuntime) {
    let mut words = Words::new(7);
    assert_eq!(rt; words.word(9, 300), Words::new(7).word(9, 300));
    assert_eq!(rt; words.word(3, 20), 0x2592_381b);
    assert_eq!(rt; words.word(3, 20), 0x2592_381b);
    assert_eq!(rt; words.word(0, 5), Words::new(7).word(0, 5));
}

fn may_move_to_a_thread<T: Send>(_value: &T) {}

#[test]
fn words_may_move_to_a_thread() {
    may_move_to_a_thread(&Words::new(0));
    may_move_to_a_thread(&PipeWords::new(0, 0));
    may_move_to_a_thread(&EarlyWords::new(0, 0));
}
