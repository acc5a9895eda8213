// Lone lines written again, in capitals: from the payload's letters, and from the seed, where the bits that are left in the
// last letter are zero.
use crate::checks::Lone;
use crate::symbols::numbers;
use crate::tally::Tally;
use kinds::{ByteKind, Kind, LongLetters, ShortLetters};

pub fn compare(tally: &mut Tally<'_>) -> anyhow::Result<()> {
    for lone in SHORT {
        tally.written::<ShortLetters>(lone)?;
    }
    tally.written::<LongLetters>(LONG)?;
    for seed in SHORT_SEEDS {
        tally.encoded::<ShortLetters>(seed)?;
    }
    tally.encoded::<LongLetters>(LONG_SEED)
}

// The lone lines of BIP-93.
const SHORT: [Lone<'static>; 2] = [
    Lone {
        line: "MS10TESTSXXXXXXXXXXXXXXXXXXXXXXXXXX4NZVCA9CMCZLW",
        identifier: "test",
        payload: "xxxxxxxxxxxxxxxxxxxxxxxxxx",
    },
    Lone {
        line: "MS10LEETSLLHDMN9M42VCSAMX24ZRXGS3QRL7AHWVHW4FNZRHVE25GVEZZYQ0PGJXPZX0YSAAM",
        identifier: "leet",
        payload: "llhdmn9m42vcsamx24zrxgs3qrl7ahwvhw4fnzrhve25gvezzyq0",
    },
];

const LONG: Lone<'static> = Lone {
    line: "MS100C8VSM32ZXFGUHPCHTLUPZRY9X8GF2TVDW0S3JN54KHCE6MUA7LQPZYGSFJD6AN074RXVCEMLH8WU3TK925ACDEFGHJKLMNPQRSTUVWXY06FHPV80UNDVARHRAK",
    identifier: "0c8v",
    payload: "m32zxfguhpchtlupzry9x8gf2tvdw0s3jn54khce6mua7lqpzygsfjd6an074rxvcemlh8wu3tk925acdefghjklmnpqrstuvwxy06f",
};

// A seed in hexadecimal digits, and the line that holds it.
#[derive(Clone, Copy)]
struct Seed {
    line: &'static str,
    identifier: &'static str,
    seed: &'static str,
}

// The first line is of BIP-93; the check letters of the others were worked out apart from this library.
const SHORT_SEEDS: [Seed; 2] = [
    Seed {
        line: "MS10LEETSLLHDMN9M42VCSAMX24ZRXGS3QRL7AHWVHW4FNZRHVE25GVEZZYQQTUM9PGV99YCMA",
        identifier: "leet",
        seed: "ffeeddccbbaa99887766554433221100ffeeddccbbaa99887766554433221100",
    },
    Seed {
        line: "MS10TESTSXXXXXXXXXXXXXXXXXXXXXXXXXYWVFUCX7RV8MK8",
        identifier: "test",
        seed: "318c6318c6318c6318c6318c6318c631",
    },
];

const LONG_SEED: Seed = Seed {
    line: "MS100C8VSM32ZXFGUHPCHTLUPZRY9X8GF2TVDW0S3JN54KHCE6MUA7LQPZYGSFJD6AN074RXVCEMLH8WU3TK925ACDEFGHJKLMNPQRSTUVWXY06GCT4AX9XTMG9J4EP",
    identifier: "0c8v",
    seed: "dc5423251cb87175ff8110c8531d0952d8d73e1194e95b5f19d6f9df7c01111104c9baecdfea8cccc677fb9ddc8aec5553b86e528bcadfdcc201c17c638c47e9",
};

impl Tally<'_> {
    pub fn written<K: Kind>(&mut self, lone: Lone<'_>) -> anyhow::Result<()> {
        let payload = numbers::<K>(self.heap, lone.payload.as_bytes())?;
        self.write::<K>(lone.line, lone.identifier, payload.as_slice())
    }

    fn encoded<K: ByteKind>(&mut self, seed: Seed) -> anyhow::Result<()> {
        let bytes = hex::decode(self.heap, seed.seed)?;
        let mut payload = vec![in self.heap; 0; 128]?;
        let Ok(count) = codes::encode::<K>(bytes.as_slice(), payload.as_mut_slice()) else {
            return self.add(seed.line, false);
        };
        payload.truncate(count);
        self.write::<K>(seed.line, seed.identifier, payload.as_slice())
    }

    fn write<K: Kind>(
        &mut self,
        line: &str,
        identifier: &str,
        payload: &[u8],
    ) -> anyhow::Result<()> {
        let identifier = numbers::<K>(self.heap, identifier.as_bytes())?;
        self.call(line, 128, Ok(line.as_bytes()), |out| {
            codes::write_lone::<K>(identifier.as_slice(), payload, out)
        })
    }
}
