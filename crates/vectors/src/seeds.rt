// The seeds of BIP-93: a line is accepted, and its payload decodes to the seed.
use crate::symbols::numbers;
use crate::tally::Tally;
use codes::Line;
use kinds::{ByteKind, LongLetters, ShortLetters};

pub fn compare(tally: &mut Tally<'_>) -> anyhow::Result<()> {
    tally.seed::<ShortLetters>(
        "ms10testsxxxxxxxxxxxxxxxxxxxxxxxxxx4nzvca9cmczlw",
        "318c6318c6318c6318c6318c6318c631",
    )?;
    tally.seed::<ShortLetters>(
        "MS12NAMES6XQGUZTTXKEQNJSJZV4JV3NZ5K3KWGSPHUH6EVW",
        "d1808e096b35b209ca12132b264662a5",
    )?;
    tally.seed::<ShortLetters>(
        "ms13cashsllhdmn9m42vcsamx24zrxgs3qqjzqud4m0d6nln",
        "ffeeddccbbaa99887766554433221100",
    )?;
    for line in LEFT_BITS {
        tally.seed::<ShortLetters>(
            line,
            "ffeeddccbbaa99887766554433221100ffeeddccbbaa99887766554433221100",
        )?;
    }
    tally.seed::<LongLetters>(
        "MS100C8VSM32ZXFGUHPCHTLUPZRY9X8GF2TVDW0S3JN54KHCE6MUA7LQPZYGSFJD6AN074RXVCEMLH8WU3TK925ACDEFGHJKLMNPQRSTUVWXY06FHPV80UNDVARHRAK",
        "dc5423251cb87175ff8110c8531d0952d8d73e1194e95b5f19d6f9df7c01111104c9baecdfea8cccc677fb9ddc8aec5553b86e528bcadfdcc201c17c638c47e9",
    )
}

// Lines of one seed: they differ in the four bits that are left in the last payload letter, and these are dropped.
const LEFT_BITS: [&str; 16] = [
    "ms10leetsllhdmn9m42vcsamx24zrxgs3qrl7ahwvhw4fnzrhve25gvezzyqqtum9pgv99ycma",
    "ms10leetsllhdmn9m42vcsamx24zrxgs3qrl7ahwvhw4fnzrhve25gvezzyqpj82dp34u6lqtd",
    "ms10leetsllhdmn9m42vcsamx24zrxgs3qrl7ahwvhw4fnzrhve25gvezzyqzsrs4pnh7jmpj5",
    "ms10leetsllhdmn9m42vcsamx24zrxgs3qrl7ahwvhw4fnzrhve25gvezzyqrfcpap2w8dqezy",
    "ms10leetsllhdmn9m42vcsamx24zrxgs3qrl7ahwvhw4fnzrhve25gvezzyqy5tdvphn6znrf0",
    "ms10leetsllhdmn9m42vcsamx24zrxgs3qrl7ahwvhw4fnzrhve25gvezzyq9dsuypw2ragmel",
    "ms10leetsllhdmn9m42vcsamx24zrxgs3qrl7ahwvhw4fnzrhve25gvezzyqx05xupvgp4v6qx",
    "ms10leetsllhdmn9m42vcsamx24zrxgs3qrl7ahwvhw4fnzrhve25gvezzyq8k0h5p43c2hzsk",
    "ms10leetsllhdmn9m42vcsamx24zrxgs3qrl7ahwvhw4fnzrhve25gvezzyqgum7hplmjtr8ks",
    "ms10leetsllhdmn9m42vcsamx24zrxgs3qrl7ahwvhw4fnzrhve25gvezzyqf9q0lpxzt5clxq",
    "ms10leetsllhdmn9m42vcsamx24zrxgs3qrl7ahwvhw4fnzrhve25gvezzyq28y48pyqfuu7le",
    "ms10leetsllhdmn9m42vcsamx24zrxgs3qrl7ahwvhw4fnzrhve25gvezzyqt7ly0paesr8x0f",
    "ms10leetsllhdmn9m42vcsamx24zrxgs3qrl7ahwvhw4fnzrhve25gvezzyqvrvg7pqydv5uyz",
    "ms10leetsllhdmn9m42vcsamx24zrxgs3qrl7ahwvhw4fnzrhve25gvezzyqd6hekpea5n0y5j",
    "ms10leetsllhdmn9m42vcsamx24zrxgs3qrl7ahwvhw4fnzrhve25gvezzyqwcnrwpmlkmt9dt",
    "ms10leetsllhdmn9m42vcsamx24zrxgs3qrl7ahwvhw4fnzrhve25gvezzyq0pgjxpzx0ysaam",
];

impl Tally<'_> {
    fn seed<K: ByteKind>(&mut self, line: &str, seed: &str) -> anyhow::Result<()> {
        let seed = hex::decode(self.heap, seed)?;
        let Ok(Line::Lone { payload, .. } | Line::Share { payload, .. }) = codes::check::<K>(
            line.as_bytes(),
        ) else {
            return self.add(line, false);
        };
        let payload = numbers::<K>(self.heap, payload.text)?;
        self.call(line, 128, Ok(seed.as_slice()), |out| {
            codes::decode::<K>(payload.as_slice(), out)
        })
    }
}
