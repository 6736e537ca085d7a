// The two rewriting calls, with a table of levels or without one, on the front of buffers that hold marks before.
use preprocessor::{preprocess, preprocess_by_levels, transform_body, transform_body_by_levels};
use spec::{Accepted, Refusal};
use stored_list::{START_NUMBERS, TEXT_BYTES, marked};

#[derive(Clone, Copy)]
pub enum Call {
    Body,
    Function,
}

// How many bytes and numbers of the buffers are lent.
#[derive(Clone, Copy, Default)]
pub struct Lent {
    pub output: usize,
    pub work: usize,
    pub spare: usize,
    pub declared: usize,
    pub records: usize,
}

// What a call is given: the text, the table if it has one, and how much of the buffers.
#[derive(Clone, Copy)]
pub struct Given<'a> {
    pub text: &'a [u8],
    pub table: Option<&'a [u8]>,
    pub lent: Lent,
}

// The buffers that both calls are lent.
#[derive(Drop)]
pub struct Buffers {
    pub output: [u8; TEXT_BYTES],
    pub work: [u8; TEXT_BYTES],
    pub spare: [u8; TEXT_BYTES],
}

// Those that the function call is lent besides. None are made for a body call: they are as many bytes as the others.
#[derive(Drop)]
pub struct MoreBuffers {
    pub declared: [u8; TEXT_BYTES],
    pub records: [u32; START_NUMBERS],
}

impl MoreBuffers {
    pub fn marked() -> MoreBuffers {
        MoreBuffers {
            declared: marked(),
            records: marked(),
        }
    }
}

impl Buffers {
    pub fn marked() -> Buffers {
        Buffers {
            output: marked(),
            work: marked(),
            spare: marked(),
        }
    }

    // The function call if there are more buffers, or else the body call, with the table if there is one; none if more is lent than
    // there is.
    pub fn rewrite(
        &mut self,
        more: Option<&mut MoreBuffers>,
        given: Given<'_>,
    ) -> Option<Result<Accepted, Refusal>> {
        let Given { text, table, lent } = given;
        let output = self.output.get_mut(..lent.output)?;
        let work = self.work.get_mut(..lent.work)?;
        let spare = self.spare.get_mut(..lent.spare)?;
        let Some(more) = more else {
            return Some(match table {
                Some(table) => transform_body_by_levels(text, table, output, work, spare),
                None => transform_body(text, output, work, spare),
            });
        };
        let declared = more.declared.get_mut(..lent.declared)?;
        let records = more.records.get_mut(..lent.records)?;
        Some(match table {
            Some(table) => {
                preprocess_by_levels(text, table, output, work, spare, declared, records)
            }
            None => preprocess(text, output, work, spare, declared, records),
        })
    }
}
