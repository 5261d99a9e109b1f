// Prints the equations of small graphs, term by term as coefficient code and exponents, so that the two encodings can be
// compared by hand; of the largest graph it prints counts alone.
#![tactic(auto)]

use coloring::encoding::Encoding;
use coloring::encoding::plain::Plain;
use coloring::encoding::triangles::Triangles;
use fields::{Bit, Field, Four};
use graphs::{Edge, Graph};
use std::io;

const LARGEST: usize = 24;

fn empty(vertices: usize) -> Graph {
    let mut graph = Graph::new();
    for _ in 0..vertices {
        let _ = graph.open();
    }
    graph
}

fn join(graph: &mut Graph, a: usize, b: usize) {
    if let Some(edge) = Edge::between(a, b) {
        graph.join(edge);
    }
}

fn join_below(graph: &mut Graph, vertex: usize) {
    for lower in 0..vertex {
        join(graph, lower, vertex);
    }
}

fn complete(vertices: usize) -> Graph {
    let mut graph = empty(vertices);
    for vertex in 0..vertices {
        join_below(&mut graph, vertex);
    }
    graph
}

fn one_edge() -> Graph {
    let mut graph = empty(3);
    join(&mut graph, 0, 2);
    graph
}

// The equations of one graph, and the name of their encoding.
#[derive(Clone, Copy)]
struct Listing<'a, E> {
    name: &'a str,
    encoding: E,
    graph: &'a Graph,
}

impl<E: Encoding + Copy> Listing<'_, E> {
    fn show_term(&self, rt: HostRuntime, equation: usize, index: usize) -> io::Result<()> {
        let term = self.encoding.term(self.graph, equation, index);
        let code = term.coeff.code();
        let exponents = term.exponents;
        let used = &exponents[..usize::from(self.graph.vertices())];
        print!(rt; " {code} {used:?}")
    }

    fn show_equation(&self, rt: HostRuntime, equation: usize) -> io::Result<()> {
        print!(rt; "  {equation}:")?;
        for index in 0..self.encoding.terms(self.graph, equation) {
            self.show_term(rt, equation, index)?;
        }
        println!(rt; "")
    }

    fn show_counts(&self, rt: HostRuntime) -> io::Result<()> {
        let name = self.name;
        let vertices = self.graph.vertices();
        let count = self.encoding.count(self.graph);
        let most = self.encoding.most();
        println!(rt; "{name}, {vertices} vertices: {count} equations of at most {most}")
    }

    fn show(&self, rt: HostRuntime) -> io::Result<()> {
        self.show_counts(rt)?;
        for equation in 0..self.encoding.count(self.graph) {
            self.show_equation(rt, equation)?;
        }
        Ok(())
    }
}

fn list<'a, E>(name: &'a str, encoding: E, graph: &'a Graph) -> Listing<'a, E> {
    Listing {
        name,
        encoding,
        graph,
    }
}

fn show_graphs<E: Encoding + Copy>(rt: HostRuntime, name: &str, encoding: E) -> io::Result<()> {
    list(name, encoding, &empty(0)).show(rt)?;
    list(name, encoding, &one_edge()).show(rt)?;
    list(name, encoding, &complete(3)).show(rt)?;
    list(name, encoding, &complete(LARGEST)).show_counts(rt)
}

fn main(rt: HostRuntime) -> io::Result<()> {
    let bits: Plain<Bit> = Plain::new();
    let four: Plain<Four> = Plain::new();
    show_graphs(rt, "plain over bits", bits)?;
    show_graphs(rt, "plain over four values", four)?;
    show_graphs(rt, "triangles over bits", Triangles::new(bits))?;
    show_graphs(rt, "triangles over four values", Triangles::new(four))?;
    show_graphs(
        rt,
        "triangles twice over bits",
        Triangles::new(Triangles::new(bits)),
    )
}
