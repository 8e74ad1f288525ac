// Arguments of a call, taken from the front of what is left of a script. What is missing at its end is 0.
ghost use Rattle.std.specs.Prelude.{◌≤◌, length};

#[derive(Clone, Copy)]
pub struct Arguments<'a> {
    left: &'a [u8],
}

impl<'a> Arguments<'a> {
    pub fn new(script: &'a [u8]) -> Arguments<'a> {
        Arguments { left: script }
    }

    // The first k bytes, or as many as there are.
    fn front(&mut self, k: usize) -> &'a [u8]
        ensures { length result.now ≤ k }
    {
        let (front, left) = self.left.split_at(self.left.len().min(k));
        self.left = left;
        front
    }

    pub fn bytes<const N: usize>(&mut self) -> [u8; N] {
        let front = self.front(N);
        let mut bytes = [0; N];
        bytes[..front.len()].copy_from_slice(front);
        bytes
    }

    pub fn byte(&mut self) -> u8 {
        let [b] = self.bytes::<1>();
        b
    }

    pub fn flag(&mut self) -> bool {
        self.byte() != 0
    }

    // 8 bytes, most significant first.
    pub fn word(&mut self) -> u64 {
        u64::from_be_bytes(self.bytes())
    }

    pub fn size(&mut self) -> usize {
        self.word() as usize
    }

    // A byte string, or as much of it as there is. Its length stands before it in 4 bytes.
    pub fn string(&mut self) -> &'a [u8] {
        let size = u32::from_be_bytes(self.bytes());
        self.front(size as usize)
    }

    pub fn words<const N: usize>(&mut self) -> [u64; N] {
        let mut words = [0; N];
        for word in &mut words {
            *word = self.word();
        }
        words
    }
}
