// Lines of BIP-93 that are accepted, with their parts.
use crate::checks::{Lone, Share};
use crate::tally::Tally;
use kinds::{LongLetters, ShortLetters};

pub fn compare(tally: &mut Tally<'_>) -> anyhow::Result<()> {
    for lone in SHORT {
        tally.lone::<ShortLetters>(lone)?;
    }
    tally.lone::<LongLetters>(LONG)?;
    for share in SHARES {
        tally.share::<ShortLetters>(share)?;
    }
    Ok(())
}

// Secrets that are not shared.
const SHORT: [Lone<'static>; 2] = [
    Lone {
        line: "ms10testsxxxxxxxxxxxxxxxxxxxxxxxxxx4nzvca9cmczlw",
        identifier: "test",
        payload: "xxxxxxxxxxxxxxxxxxxxxxxxxx",
    },
    Lone {
        line: "ms10leetsllhdmn9m42vcsamx24zrxgs3qrl7ahwvhw4fnzrhve25gvezzyqqtum9pgv99ycma",
        identifier: "leet",
        payload: "llhdmn9m42vcsamx24zrxgs3qrl7ahwvhw4fnzrhve25gvezzyqq",
    },
];

const LONG: Lone<'static> = Lone {
    line: "MS100C8VSM32ZXFGUHPCHTLUPZRY9X8GF2TVDW0S3JN54KHCE6MUA7LQPZYGSFJD6AN074RXVCEMLH8WU3TK925ACDEFGHJKLMNPQRSTUVWXY06FHPV80UNDVARHRAK",
    identifier: "0C8V",
    payload: "M32ZXFGUHPCHTLUPZRY9X8GF2TVDW0S3JN54KHCE6MUA7LQPZYGSFJD6AN074RXVCEMLH8WU3TK925ACDEFGHJKLMNPQRSTUVWXY06F",
};

const SHARES: [Share<'static>; 10] = [
    // Secrets that are shared: shares with the index s.
    Share {
        line: "MS12NAMES6XQGUZTTXKEQNJSJZV4JV3NZ5K3KWGSPHUH6EVW",
        threshold: 2,
        identifier: "NAME",
        index: "S",
        payload: "6XQGUZTTXKEQNJSJZV4JV3NZ5K",
    },
    Share {
        line: "ms13cashsllhdmn9m42vcsamx24zrxgs3qqjzqud4m0d6nln",
        threshold: 3,
        identifier: "cash",
        index: "s",
        payload: "llhdmn9m42vcsamx24zrxgs3qq",
    },
    // Shares of the first of these.
    Share {
        line: "MS12NAMEA320ZYXWVUTSRQPNMLKJHGFEDCAXRPP870HKKQRM",
        threshold: 2,
        identifier: "NAME",
        index: "A",
        payload: "320ZYXWVUTSRQPNMLKJHGFEDCA",
    },
    Share {
        line: "MS12NAMECACDEFGHJKLMNPQRSTUVWXYZ023FTR2GDZMPY6PN",
        threshold: 2,
        identifier: "NAME",
        index: "C",
        payload: "ACDEFGHJKLMNPQRSTUVWXYZ023",
    },
    Share {
        line: "MS12NAMEDLL4F8JLH4E5VDVULDLFXU2JHDNLSM97XVENRXEG",
        threshold: 2,
        identifier: "NAME",
        index: "D",
        payload: "LL4F8JLH4E5VDVULDLFXU2JHDN",
    },
    // Shares of the second.
    Share {
        line: "ms13casha320zyxwvutsrqpnmlkjhgfedca2a8d0zehn8a0t",
        threshold: 3,
        identifier: "cash",
        index: "a",
        payload: "320zyxwvutsrqpnmlkjhgfedca",
    },
    Share {
        line: "ms13cashcacdefghjklmnpqrstuvwxyz023949xq35my48dr",
        threshold: 3,
        identifier: "cash",
        index: "c",
        payload: "acdefghjklmnpqrstuvwxyz023",
    },
    Share {
        line: "ms13cashd0wsedstcdcts64cd7wvy4m90lm28w4ffupqs7rm",
        threshold: 3,
        identifier: "cash",
        index: "d",
        payload: "0wsedstcdcts64cd7wvy4m90lm",
    },
    Share {
        line: "ms13casheekgpemxzshcrmqhaydlp6yhms3ws7320xyxsar9",
        threshold: 3,
        identifier: "cash",
        index: "e",
        payload: "ekgpemxzshcrmqhaydlp6yhms3",
    },
    Share {
        line: "ms13cashf8jh6sdrkpyrsp5ut94pj8ktehhw2hfvyrj48704",
        threshold: 3,
        identifier: "cash",
        index: "f",
        payload: "8jh6sdrkpyrsp5ut94pj8ktehh",
    },
];
