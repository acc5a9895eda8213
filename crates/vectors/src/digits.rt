// Lines of digits. Their check digits were worked out apart from this library.
use crate::checks::{Lone, Share};
use crate::tally::Tally;
use codes::Refusal;
use kinds::Digits;

pub fn compare(tally: &mut Tally<'_>) -> anyhow::Result<()> {
    for lone in LONE {
        tally.lone::<Digits>(lone)?;
    }
    for share in SHARES {
        tally.share::<Digits>(share)?;
    }
    for lone in WRITTEN {
        tally.written::<Digits>(lone)?;
    }
    refused(tally)
}

const LONE: [Lone<'static>; 4] = [
    Lone {
        line: "NP10184803141592653875269X2127621",
        identifier: "1848",
        payload: "3141592653",
    },
    Lone {
        line: "np10184803141592653875269x2127621",
        identifier: "1848",
        payload: "3141592653",
    },
    Lone {
        line: "NP10XX0X0271828182845043947886701X5",
        identifier: "XX0X",
        payload: "271828182845",
    },
    Lone {
        line: "np10xx0x0271828182845043947886701x5",
        identifier: "xx0x",
        payload: "271828182845",
    },
];

const SHARES: [Share<'static>; 5] = [
    Share {
        line: "NP127X0133141592644431219718465",
        threshold: 2,
        identifier: "7X01",
        index: "3",
        payload: "31415926",
    },
    Share {
        line: "np127x0133141592644431219718465",
        threshold: 2,
        identifier: "7x01",
        index: "3",
        payload: "31415926",
    },
    Share {
        line: "NP157X01X0000000000000075X12520020326",
        threshold: 5,
        identifier: "7X01",
        index: "X",
        payload: "00000000000000",
    },
    Share {
        line: "NP131234557721586X853772270X0",
        threshold: 3,
        identifier: "1234",
        index: "5",
        payload: "577215",
    },
    Share {
        line: "NP190000012345678901234567890123456789012345678X002432528159852",
        threshold: 9,
        identifier: "0000",
        index: "0",
        payload: "12345678901234567890123456789012345678X0",
    },
];

const WRITTEN: [Lone<'static>; 2] = [
    Lone {
        line: "NP10184803141592653875269X2127621",
        identifier: "1848",
        payload: "3141592653",
    },
    Lone {
        line: "NP10XX0X0271828182845043947886701X5",
        identifier: "xx0x",
        payload: "271828182845",
    },
];

fn refused(tally: &mut Tally<'_>) -> anyhow::Result<()> {
    // Payloads of 3 and of 41 digits.
    tally.refused::<Digits>("NP1012340577X216662X491X87", Refusal::Length)?;
    tally.refused::<Digits>(
        "NP12123453141592653314159265331415926533141592653590931731834X6X",
        Refusal::Length,
    )?;
    tally.refused::<Digits>("MS10184803141592653875269X2127621", Refusal::Prefix)?;
    tally.refused::<Digits>("NP1018480314159265387526912127A21", Refusal::Character)?;
    tally.refused::<Digits>("NP10184803141592653875269x2127621", Refusal::MixedCase)?;
    // A wrong last digit, and a wrong digit of the payload.
    tally.refused::<Digits>("NP10184803141592653875269X2127622", Refusal::Checksum)?;
    tally.refused::<Digits>("NP10184803241592653875269X2127621", Refusal::Checksum)?;
    // The thresholds 1 and X.
    tally.refused::<Digits>("NP111234557721592X885X2168459", Refusal::Threshold)?;
    tally.refused::<Digits>("NP1X12345577215X9X807280X9807", Refusal::Threshold)?;
    // The indices 5 and X of a secret that is not shared.
    tally.refused::<Digits>("NP101234557724280365X28XX8X", Refusal::LoneIndex)?;
    tally.refused::<Digits>("NP101234X5772874X093X120017", Refusal::LoneIndex)
}
