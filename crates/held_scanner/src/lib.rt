// The text as a struct that holds its slice, and the searches as its methods: each takes the struct apart, and calls the
// search of the same name on the slice. A struct that holds the slice, with methods that only forward, is one of the forms
// (docs/DECISIONS.md) in which this project states a search.
#![tactic(auto)]

ghost use Rattle.std.specs.Prelude.{◌≡◌, []};
ghost use Rattle.spec.specs.Answers.{map_exit, regions_answer, keyword_answer, word_answer, word_part, unterminated_answer, byte_answer, needle_answer, handler_answer, split_answer, split_map_exit, split_exit, requoted_length_answer, requote_answer, requote_exit};
ghost use Rattle.searches.specs.Words.{word_found, word_bytes};

use searches::Word;
use spec::Refusal;

#[derive(Clone, Copy)]
pub struct Scanner<'a> {
    pub text: &'a [u8],
}

impl<'a> Scanner<'a> {
    // The slice goes into the struct, unchecked: each search checks it.
    pub fn new(text: &'a [u8]) -> Scanner<'a>
        ensures { result.text ≡ text.entry }
    {
        Scanner { text }
    }

    // Whether a dollar literal opens and never closes.
    pub fn has_unterminated_dollar_quote(self) -> Result<Option<usize>, Refusal>
        ensures { result ≡ unterminated_answer self.entry.text.now }
    {
        searches::has_unterminated_dollar_quote(self.text)
    }

    // The region of every byte of the text: 0 live, 1 quoted.
    pub fn regions(self, map: &mut [u8]) -> Result<usize, Refusal>
        ensures value { result ≡ regions_answer self.entry.text.now map.old }
        ensures map_after { map.new ≡ map_exit self.entry.text.now map.old [] }
    {
        searches::regions(self.text, map)
    }

    // The least offset at or after `from` where `keyword` stands live, as a whole word, in any letter case.
    pub fn find_keyword(
        self,
        map: &mut [u8],
        keyword: &[u8],
        from: usize,
    ) -> Result<Option<usize>, Refusal>
        ensures value { result ≡ keyword_answer self.entry.text.now map.old keyword.now from }
        ensures map_after { map.new ≡ map_exit self.entry.text.now map.old keyword.now }
    {
        searches::find_keyword(self.text, map, keyword, from)
    }

    // The least offset of the live byte b.
    pub fn find_in_code(self, map: &mut [u8], b: u8) -> Result<Option<usize>, Refusal>
        ensures value { result ≡ byte_answer self.entry.text.now map.old b }
        ensures map_after { map.new ≡ map_exit self.entry.text.now map.old [] }
    {
        searches::find_in_code(self.text, map, b)
    }

    // The least offset where `needle` stands, its first byte live.
    pub fn find_str_in_code(self, map: &mut [u8], needle: &[u8]) -> Result<Option<usize>, Refusal>
        ensures value { result ≡ needle_answer self.entry.text.now map.old needle.now }
        ensures map_after { map.new ≡ map_exit self.entry.text.now map.old needle.now }
    {
        searches::find_str_in_code(self.text, map, needle)
    }

    // The next word of live text at or after `from`.
    pub fn next_word_in_code(self, map: &mut [u8], from: usize) -> Result<Option<Word<'a>>, Refusal>
        ensures value { word_found result ≡ word_answer self.entry.text.now map.old from }
        ensures bytes { word_bytes result ≡ word_part self.entry.text.now map.old from }
        ensures map_after { map.new ≡ map_exit self.entry.text.now map.old [] }
    {
        searches::next_word_in_code(self.text, map, from)
    }

    // Whether a live EXCEPTION has WHEN as its next live word.
    pub fn has_exception_handler(self, map: &mut [u8]) -> Result<Option<usize>, Refusal>
        ensures value { result ≡ handler_answer self.entry.text.now map.old }
        ensures map_after { map.new ≡ map_exit self.entry.text.now map.old [] }
    {
        searches::has_exception_handler(self.text, map)
    }

    // Where each piece between live bytes `separator` starts; the answer is how many there are.
    pub fn split_in_code(
        self,
        map: &mut [u8],
        starts: &mut [u32],
        separator: u8,
    ) -> Result<usize, Refusal>
        ensures value { result ≡ split_answer self.entry.text.now map.old starts.old separator }
        ensures map_after { map.new ≡ split_map_exit self.entry.text.now map.old starts.old }
        ensures starts_after { starts.new ≡ split_exit self.entry.text.now map.old starts.old separator }
    {
        searches::split_in_code(self.text, map, starts, separator)
    }

    // The length of the requoted text, before anything is written.
    pub fn requoted_length(self) -> Result<usize, Refusal>
        ensures { result ≡ requoted_length_answer self.entry.text.now }
    {
        searches::requoted_length(self.text)
    }

    // Each dollar literal as a single-quoted one, in a buffer of the requoted length or more; the answer is that length.
    pub fn requote_dollar_literals(self, output: &mut [u8]) -> Result<usize, Refusal>
        ensures value { result ≡ requote_answer self.entry.text.now output.old }
        ensures output_after { output.new ≡ requote_exit self.entry.text.now output.old }
    {
        searches::requote_dollar_literals(self.text, output)
    }
}
