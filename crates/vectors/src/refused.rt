// Lines of letters that are refused, by the first rule that each breaks. Some are of BIP-93; the check letters of the others
// were worked out apart from this library.
use crate::tally::Tally;
use codes::Refusal;
use kinds::{Kind, LongLetters, ShortLetters};

pub fn compare(tally: &mut Tally<'_>) -> anyhow::Result<()> {
    refused::<ShortLetters>(tally, Refusal::Length, &LENGTHS)?;
    refused::<LongLetters>(tally, Refusal::Length, &LENGTHS)?;
    refused::<ShortLetters>(tally, Refusal::Prefix, &PREFIXES)?;
    refused::<ShortLetters>(tally, Refusal::Character, &CHARACTERS)?;
    refused::<ShortLetters>(tally, Refusal::MixedCase, &CASES)?;
    refused::<ShortLetters>(tally, Refusal::Checksum, &CHECKSUMS)?;
    refused::<LongLetters>(tally, Refusal::Checksum, &LONG_CHECKSUMS)?;
    other_checksums(tally)?;
    refused::<ShortLetters>(tally, Refusal::Threshold, &THRESHOLDS)?;
    refused::<LongLetters>(tally, Refusal::Threshold, &LONG_THRESHOLDS)?;
    refused::<ShortLetters>(tally, Refusal::LoneIndex, &INDICES)?;
    refused::<LongLetters>(tally, Refusal::LoneIndex, &LONG_INDICES)
}

fn refused<K: Kind>(tally: &mut Tally<'_>, refusal: Refusal, lines: &[&str]) -> anyhow::Result<()> {
    for line in lines {
        tally.refused::<K>(line, refusal)?;
    }
    Ok(())
}

// Lines with a right checksum of either kind, and a length that neither kind has.
const LENGTHS: [&str; 13] = [
    // 25, 27, 75 and 104 letters of payload, and an incomplete group of five bits or more: 30, 33 and 35 letters.
    "ms12nameart4p0l39mndf88fdnm93l0p4txkwjsjprzlz49",
    "ms12nameart4p0l39mndf88fdnm93l0p4trap0d0fmt2sec2f",
    "ms12nameart4p0l39mndf88fdnm93l0p4traehheart4p0l39mndf88fdnm93l0p4traehheart4p0l39mndcpmwnlu6wndry",
    "ms12nameart4p0l39mndf88fdnm93l0p4traehheart4p0l39mndf88fdnm93l0p4traehheart4p0l39mndf88fdnm93l0p4traehheart4p0l39s304rjfm88f20",
    "ms12nameart4p0l39mndf88fdnm93l0p4traehhmypkskre0sht3",
    "ms12nameart4p0l39mndf88fdnm93l0p4traehhear9r99y4czs05xc",
    "ms12nameart4p0l39mndf88fdnm93l0p4traehheart47qk69cmttnwny",
    // The same with the long checksum: 75, 104, 78, 81 and 83 letters.
    "ms12nameart4p0l39mndf88fdnm93l0p4traehheart4p0l39mndf88fdnm93l0p4traehheart4p0l39mndvt0a9rcg4vu0533",
    "ms12nameart4p0l39mndf88fdnm93l0p4traehheart4p0l39mndf88fdnm93l0p4traehheart4p0l39mndf88fdnm93l0p4traehheart4p0l395qx6xqk7n2338kk",
    "ms12nameart4p0l39mndf88fdnm93l0p4traehheart4p0l39mndf88fdnm93l0p4traehheart4p0l39mndf88sxeq96xr7le0av8",
    "ms12nameart4p0l39mndf88fdnm93l0p4traehheart4p0l39mndf88fdnm93l0p4traehheart4p0l39mndf88fdnapaws70fjcs3fle",
    "ms12nameart4p0l39mndf88fdnm93l0p4traehheart4p0l39mndf88fdnm93l0p4traehheart4p0l39mndf88fdnm9znx2c0g0c5am7nh",
    // No prefix.
    "0fauxsxxxxxxxxxxxxxxxxxxxxxxxxxxuqxkk05lyf3x2",
];

const PREFIXES: [&str; 4] = [
    "mz10fauxsxxxxxxxxxxxxxxxxxxxxxxxxxxuqxkk05lyf3x2",
    "ns10fauxsxxxxxxxxxxxxxxxxxxxxxxxxxxuqxkk05lyf3x2",
    "ms20fauxsxxxxxxxxxxxxxxxxxxxxxxxxxxuqxkk05lyf3x2",
    "NP10FAUXSXXXXXXXXXXXXXXXXXXXXXXXXXXUQXKK05LYF3X2",
];

const CHARACTERS: [&str; 6] = [
    "ms10fauxsbxxxxxxxxxxxxxxxxxxxxxxxxxuqxkk05lyf3x2",
    "ms10fauxsxxxxxxxxxxxxxxxxxxxxxxxxxiuqxkk05lyf3x2",
    "ms10fouxsxxxxxxxxxxxxxxxxxxxxxxxxxxuqxkk05lyf3x2",
    "ms10faux1xxxxxxxxxxxxxxxxxxxxxxxxxxuqxkk05lyf3x2",
    "ms11fauxsxxxxxxxxxxxxxxxxxxxxxxxxxxuqxkk05lyf3x2",
    "ms10fauxsxxxxxxxxxxxxxxxxxxxxxxxxxxuqxkk05lyf3x-",
];

// One line of BIP-93 with small letters and capitals.
const CASES: [&str; 7] = [
    "Ms10fauxsxxxxxxxxxxxxxxxxxxxxxxxxxxuqxkk05lyf3x2",
    "mS10fauxsxxxxxxxxxxxxxxxxxxxxxxxxxxuqxkk05lyf3x2",
    "MS10fauxsxxxxxxxxxxxxxxxxxxxxxxxxxxuqxkk05lyf3x2",
    "ms10FAUXsxxxxxxxxxxxxxxxxxxxxxxxxxxuqxkk05lyf3x2",
    "ms10fauxSxxxxxxxxxxxxxxxxxxxxxxxxxxuqxkk05lyf3x2",
    "ms10fauxsXXXXXXXXXXXXXXXXXXXXXXXXXXuqxkk05lyf3x2",
    "ms10fauxsxxxxxxxxxxxxxxxxxxxxxxxxxxUQXKK05LYF3X2",
];

const CHECKSUMS: [&str; 4] = [
    "ms10fauxsxxxxxxxxxxxxxxxxxxxxxxxxxxve740yyge2ghq",
    "ms10fauxsxxxxxxxxxxxxxxxxxxxxxxxxxxve740yyge2ghp",
    "ms10testsxxxxxxxxxxxxxxxxxxxxxxxxxx4nzvca9cmczlq",
    "ms10testsxxxxxxxxxxxxxxxxxxxxxxxxxq4nzvca9cmczlw",
];

const LONG_CHECKSUMS: [&str; 1] = [
    "MS100C8VSM32ZXFGUHPCHTLUPZRY9X8GF2TVDW0S3JN54KHCE6MUA7LQPZYGSFJD6AN074RXVCEMLH8WU3TK925ACDEFGHJKLMNPQRSTUVWXY06FHPV80UNDVARHRAQ",
];

// The short checksum in a line as long as the long kind has, and the long checksum in a short line.
fn other_checksums(tally: &mut Tally<'_>) -> anyhow::Result<()> {
    let long =
        "ms12nameart4p0l39mndf88fdnm93l0p4traehheart4p0l39mndf88fdnm93l0p4traehheart4p0l39mndf88ktq3fhf69jmyy";
    tally.refused::<LongLetters>(long, Refusal::Checksum)?;
    tally.refused::<ShortLetters>(long, Refusal::Length)?;
    let short = "ms12nameart4p0l39mndf88fdnm93l0p4jznw2h43g77dgdu";
    tally.refused::<ShortLetters>(short, Refusal::Checksum)?;
    tally.refused::<LongLetters>(short, Refusal::Length)
}

// Right checksums, with a letter for the threshold.
const THRESHOLDS: [&str; 3] = [
    "ms1fauxxxxxxxxxxxxxxxxxxxxxxxxxxxxxda3kr3s0s2swg",
    "ms1sfauxsxxxxxxxxxxxxxxxxxxxxxxxxxxmr5wg8uvt8mvj",
    "ms1lfauxsxxxxxxxxxxxxxxxxxxxxxxxxxxw235qkdw0yyng",
];

const LONG_THRESHOLDS: [&str; 1] = [
    "ms1lnameart4p0l39mndf88fdnm93l0p4traehheart4p0l39mndf88fdnm93l0p4traehheart4p0l39mndf0vmwk2c8nsy5v47",
];

// Right checksums, with an index other than s of a secret that is not shared.
const INDICES: [&str; 3] = [
    "ms10fauxxxxxxxxxxxxxxxxxxxxxxxxxxxx0z26tfn0ulw3p",
    "ms10fauxqxxxxxxxxxxxxxxxxxxxxxxxxxx9a62wpqp4e5vz",
    "ms10fauxcxxxxxxxxxxxxxxxxxxxxxxxxxxy6gc6g7scp8rw",
];

const LONG_INDICES: [&str; 1] = [
    "ms10nameart4p0l39mndf88fdnm93l0p4traehheart4p0l39mndf88fdnm93l0p4traehheart4p0l39mndfrxau7m7x93k9w54",
];
