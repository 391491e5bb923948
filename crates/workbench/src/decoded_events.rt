//! The answer of a decoder to a stream that is pushed in pieces.
use crate::answer::{Answer, keep_rows};
use crate::cut::Cut;
use crate::request::Request;
use ipc_model::{BatchRows, Fault, Items, Schema, Table};
use ipc_stream::{Decoder, End, Event};
use std::alloc::{AllocError, Global};

// The events so far, and how many bytes were taken.
#[derive(Drop)]
struct DecodedEvents {
    batches: Vec<BatchRows>,
    taken: usize,
}

impl DecodedEvents {
    // Pushes one piece, and again what a call did not take of it.
    fn push(&mut self, alloc: Global, decoder: &mut Decoder, piece: &[u8]) -> Result<(), Fault> {
        let mut piece = piece;
        for _ in 0..=piece.len() {
            let (count, event) = decoder.feed(piece)?;
            self.taken = self.taken.saturating_add(count);
            piece = piece.get(count..).unwrap_or(&[]);
            match event {
                Some(Event::Batch(batch, pairs)) => {
                    keep_rows(alloc, &batch, pairs, &mut self.batches)?;
                }
                Some(_) => {}
                None => return Ok(()),
            }
        }
        Ok(())
    }

    // Pushes all pieces.
    fn push_all(
        &mut self,
        alloc: Global,
        decoder: &mut Decoder,
        stream: &[u8],
        cut: Cut,
    ) -> Result<(), Fault> {
        match cut {
            Cut::Each(size) => {
                for piece in stream.chunks(size.max(1)) {
                    self.push(alloc, decoder, piece)?;
                }
                Ok(())
            }
            Cut::At(place) => {
                let (front, behind) = stream.split_at(place.min(stream.len()));
                self.push(alloc, decoder, front)?;
                self.push(alloc, decoder, behind)
            }
        }
    }
}

// A copy of the schema in force.
fn schema_of(decoder: &Decoder) -> Result<Option<Schema>, AllocError> {
    match decoder.schema() {
        Some(schema) => Ok(Some(schema.clone()?)),
        None => Ok(None),
    }
}

// The end of the stream, or why it was refused.
fn ending(pushed: Result<(), Fault>, decoder: &mut Decoder) -> Result<End, Fault> {
    pushed?;
    decoder.close()
}

impl Answer {
    /// The answer to a stream that is cut in this way. If it is refused, the count of bytes is that
    /// of `whole`, because `feed` does not return it then.
    pub fn pushed(
        alloc: Global,
        request: &Request,
        cut: Cut,
        whole: &Answer,
    ) -> Result<Answer, AllocError> {
        Answer::answer_of_decoder(
            alloc,
            &mut Decoder::new(alloc, request.limits),
            request,
            cut,
            whole,
        )
    }

    // The answer of a new decoder.
    fn answer_of_decoder(
        alloc: Global,
        decoder: &mut Decoder,
        request: &Request,
        cut: Cut,
        whole: &Answer,
    ) -> Result<Answer, AllocError> {
        let mut told = DecodedEvents {
            batches: Vec::new(alloc),
            taken: 0,
        };
        let pushed = told.push_all(alloc, decoder, request.stream.as_slice(), cut);
        let messages = decoder.messages();
        let ended = ending(pushed, decoder);
        let schema = schema_of(decoder)?;
        let left = request.stream.len().saturating_sub(told.taken);
        let batches = Items::from_vec(told.batches);
        Ok(Answer {
            table: schema.map(|schema| Table { schema, batches }),
            end: ended.as_ref().ok().copied(),
            taken: if ended.is_ok() {
                Some(told.taken as u64)
            } else {
                whole.taken
            },
            left: if ended.is_ok() { left } else { whole.left },
            refusal: ended.err().map(|fault| (fault, messages)),
        })
    }
}
