//! What the lines of an answer text say so far.

ghost use Rattle.std.specs.Prelude.{◌≡◌, [], ◌∷◌, ◌++◌, Some, None, IfOk};
ghost use Rattle.answer_text.specs.Answer.{answer_fault_of, TakesAnswerLine, TakesAnswerAs, read_value, read_flow, read_potential, read_shortage, read_cut_node, value_said, flow_said, potential_said, shortage_said, cut_node_said, last_node, answer_ending, NamesNodes};

use crate::answer::{Answer, FlowLine};
use crate::answer_fault::AnswerFault;
use crate::answer_line::AnswerLine;
use dimacs_lines::{LineError, LineFault, Sequence, Words, claimed_value, natural_in, number_in};
use std::alloc::Global;
use std::marker::Model;

/// What the lines of an answer text say so far.
#[derive(Drop)]
pub struct AnswerDraft {
    nodes: u32,
    arcs: u32,
    value: Option<i128>,
    flows: Vec<FlowLine>,
    potentials: Vec<i64>,
    shortage: Option<i64>,
    cut: Vec<u32>,
}

impl Model for AnswerDraft {
    ghost use Rattle.answer_text.specs.Answer.{Drafted};

    ghost Value = { Drafted };

    ghost view = { λ d. record { nodes = d.nodes; arcs = d.arcs; said = record { value = d.value; flows = d.flows.items; potentials = d.potentials.items; shortage = d.shortage; cut = d.cut.items } } };

    ghost use Rattle.std.specs.List.{All};
    ghost use Rattle.answer_text.specs.Answer.{JoinsNodes};
    ghost use Rattle.dimacs_lines.specs.Fields.{IsNode};

    ghost invariant = { λ d. All (JoinsNodes d.nodes) d.flows.items × All (IsNode d.nodes) d.cut.items };
}

impl AnswerDraft {
    /// Before any line of an answer to a problem of this size.
    pub fn new(alloc: Global, nodes: u32, arcs: u32) -> Self
        ensures { result ≡ record {
          nodes = nodes;
          arcs = arcs;
          said = record { value = None; flows = []; potentials = []; shortage = None; cut = [] };
        } }
    {
        AnswerDraft {
            nodes,
            arcs,
            value: None,
            flows: Vec::new(alloc),
            potentials: Vec::new(alloc),
            shortage: None,
            cut: Vec::new(alloc),
        }
    }

    /// Takes a line that is not too long.
    pub fn take(&mut self, line: &[u8]) -> Result<(), LineError>
        ensures { TakesAnswerLine result line.now self.old self.new }
    {
        let mut words = Words::new(line);
        let Some(first) = words.next() else {
            return Ok(());
        };
        match AnswerLine::of(first.bytes()) {
            AnswerLine::Comment => Ok(()),
            AnswerLine::Value => self.take_value(words),
            AnswerLine::Flow => self.take_flow(words),
            AnswerLine::Potential => self.take_potential(words),
            AnswerLine::Shortage => self.take_shortage(words),
            AnswerLine::CutNode => self.take_cut_node(words),
            AnswerLine::Unknown => Err(LineFault::UnknownDesignator.into()),
        }
    }

    /// Takes an `s` line, after its designator.
    fn take_value(&mut self, fields: Words) -> Result<(), LineError>
        ensures { TakesAnswerAs result
            (answer_fault_of (read_value self.old.said fields.entry)) self.old
            (record self.old.said { value = Some (value_said fields.entry) }) self.new }
    {
        let value = self.read_value(fields)?;
        self.value = Some(value);
        Ok(())
    }

    /// Takes an `f` line, after its designator.
    fn take_flow(&mut self, fields: Words) -> Result<(), LineError>
        ensures { TakesAnswerAs result
            (answer_fault_of
            (read_flow self.old.nodes self.old.arcs self.old.said fields.entry)) self.old
            (record self.old.said { flows = self.old.said.flows ++ flow_said fields.entry ∷ [] })
            self.new }
    {
        let flow = self.read_flow(fields)?;
        self.flows.push(flow)?;
        Ok(())
    }

    /// Takes a `v` line, after its designator.
    fn take_potential(&mut self, fields: Words) -> Result<(), LineError>
        ensures { TakesAnswerAs result
            (answer_fault_of
            (read_potential self.old.nodes self.old.arcs self.old.said fields.entry))
            self.old (record self.old.said {
              potentials =
                  self.old.said.potentials ++ potential_said fields.entry ∷ [];
            }) self.new }
    {
        let potential = self.read_potential(fields)?;
        self.potentials.push(potential)?;
        Ok(())
    }

    /// Takes an `i` line, after its designator.
    fn take_shortage(&mut self, fields: Words) -> Result<(), LineError>
        ensures { TakesAnswerAs result
            (answer_fault_of (read_shortage self.old.said fields.entry)) self.old
            (record self.old.said { shortage = Some (shortage_said fields.entry) }) self.new }
    {
        let shortage = self.read_shortage(fields)?;
        self.shortage = Some(shortage);
        Ok(())
    }

    /// Takes a `k` line, after its designator.
    fn take_cut_node(&mut self, fields: Words) -> Result<(), LineError>
        ensures { TakesAnswerAs result
            (answer_fault_of (read_cut_node self.old.nodes self.old.said fields.entry)) self.old
            (record self.old.said { cut = self.old.said.cut ++ cut_node_said fields.entry ∷ [] })
            self.new }
    {
        let node = self.read_cut_node(fields)?;
        self.cut.push(node)?;
        Ok(())
    }

    /// What an `s` line says, after its designator.
    #[tactic(auto, unfolding(crate::specs::Answer::read_value))]
    fn read_value(&self, fields: Words) -> Result<i128, AnswerFault>
        ensures { result ≡ read_value self.now.said fields.entry }
    {
        if self.value.is_some() || self.shortage.is_some() {
            return Err(AnswerFault::OutOfOrder);
        }
        let word = fields.one()?;
        Ok(claimed_value(word.bytes()).ok_or(LineFault::NotANumber)?)
    }

    /// What an `f` line says, after its designator.
    #[tactic(auto, unfolding(crate::specs::Answer::read_flow))]
    fn read_flow(&self, fields: Words) -> Result<FlowLine, AnswerFault>
        ensures { result ≡ read_flow self.now.nodes self.now.arcs self.now.said fields.entry }
    {
        if self.value.is_none() || self.flows.len() >= self.arcs as usize {
            return Err(AnswerFault::OutOfOrder);
        }
        let (tail, head, flow) = fields.three()?;
        let nodes = u64::from(self.nodes);
        let tail = natural_in(tail, 1, nodes)? as u32;
        let head = natural_in(head, 1, nodes)? as u32;
        let flow = number_in(flow)? as i64;
        Ok(FlowLine { tail, head, flow })
    }

    /// What a `v` line says, after its designator.
    #[tactic(auto, unfolding(crate::specs::Answer::read_potential))]
    fn read_potential(&self, fields: Words) -> Result<i64, AnswerFault>
        ensures { result ≡ read_potential self.now.nodes self.now.arcs self.now.said fields.entry }
    {
        if self.value.is_none()
            || self.flows.len() != self.arcs as usize
            || self.potentials.len() >= self.nodes as usize
        {
            return Err(AnswerFault::OutOfOrder);
        }
        let (id, potential) = fields.two()?;
        let id = natural_in(id, 1, u64::from(self.nodes))?;
        let potential = potential.integer().ok_or(LineFault::NotANumber)?;
        if id != self.potentials.len() as u64 + 1 {
            return Err(AnswerFault::OutOfOrder);
        }
        Ok(potential)
    }

    /// What an `i` line says, after its designator.
    #[tactic(auto, unfolding(crate::specs::Answer::read_shortage))]
    fn read_shortage(&self, fields: Words) -> Result<i64, AnswerFault>
        ensures { result ≡ read_shortage self.now.said fields.entry }
    {
        if self.value.is_some() || self.shortage.is_some() {
            return Err(AnswerFault::OutOfOrder);
        }
        Ok(number_in(fields.one()?)? as i64)
    }

    /// What a `k` line says, after its designator.
    #[tactic(auto, unfolding(crate::specs::Answer::read_cut_node))]
    fn read_cut_node(&self, fields: Words) -> Result<u32, AnswerFault>
        ensures { result ≡ read_cut_node self.now.nodes self.now.said fields.entry }
    {
        if self.shortage.is_none() {
            return Err(AnswerFault::OutOfOrder);
        }
        let id = fields.one()?;
        let id = natural_in(id, 1, u64::from(self.nodes))? as u32;
        if id <= self.last_node() {
            return Err(AnswerFault::OutOfOrder);
        }
        Ok(id)
    }

    /// The last node of the cut, or 0 before the first.
    fn last_node(&self) -> u32
        ensures { result ≡ last_node self.now.said.cut }
    {
        if self.cut.is_empty() {
            return 0;
        }
        self.cut[self.cut.len() - 1]
    }

    /// The answer, where no line is missing.
    pub fn close(self) -> Result<Answer, AnswerFault>
        ensures value { result ≡ answer_ending self.nodes self.arcs self.said }
        ensures ends { IfOk result (NamesNodes self.nodes) }
    {
        let AnswerDraft {
            nodes,
            arcs,
            value,
            flows,
            potentials,
            shortage,
            cut,
        } = self;
        if let Some(shortage) = shortage {
            return Ok(Answer::Cut {
                shortage,
                nodes: Sequence::new(cut),
            });
        }
        let Some(value) = value else {
            return Err(AnswerFault::OutOfOrder);
        };
        if flows.len() != arcs as usize || potentials.len() != nodes as usize {
            return Err(AnswerFault::OutOfOrder);
        }
        Ok(Answer::Flow {
            value,
            flows: Sequence::new(flows),
            potentials: Sequence::new(potentials),
        })
    }
}
